use book::Book;
use factor::Source;
use frame_log::Taker;

// A book with the source that it asks.
#[derive(Drop)]
pub(crate) struct Offering<'b, 'm, S> {
    pub(crate) book: &'b mut Book<'m>,
    pub(crate) source: &'b mut S,
}

impl<S: Source> Taker for Offering<'_, '_, S> {
    ghost use Rattle.book_log.specs.Log.{Answered};

    ghost answers = { Answered S.Source.table };

    fn takes(&mut self, frame: &[u8]) -> bool {
        self.book.offer(frame, self.source).is_ok()
    }
}
