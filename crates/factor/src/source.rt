ghost use Rattle.std.specs.Prelude.{◌≡◌, IfSome, None, Option};
ghost use Rattle.factor.specs.declared.question.Factor.{Factor};
ghost use Rattle.factor.specs.declared.question.Question.{Question};
ghost use Rattle.factor.specs.Classes.{class_number};
ghost use Rattle.factor.specs.Limits.{Within};
ghost use Rattle.factor.specs.Questions.{Asked, asked_of, by_tier};
ghost use Rattle.factor.specs.Limited.{Limited, none_limited, by_tier_limited};

use crate::question::{Factor, Question};
use kind::Tier;

// What holds factors; its table says what it answers to each question.
pub trait Source {
    ghost table: { Self → Asked → Option Factor };

    fn ask(&mut self, question: Question) -> Option<Factor>
        ensures answer { result ≡ table self.old (asked_of question) }
        ensures same { table self.new ≡ table self.old }
        ensures limits { IfSome result (λ f. Within (asked_of question).class f) };
}

// Keeps the limits whatever numbers its fields hold, so that a caller need not ask; a law is over every number, so it is no part of `Source`.
pub trait LimitedSource: Source {
    // What the table holds for a question is within the limits of its class.
    ghost limits: { (s : Self) (q : Question) → Limited (class_number q.class) (Self.table s (asked_of q)) };
}

// A source that holds nothing.
#[derive(Drop)]
pub struct Nothing;

impl Source for Nothing {
    ghost table = { λ _ _. None };

    fn ask(&mut self, question: Question) -> Option<Factor> {
        None
    }
}

impl LimitedSource for Nothing {
    ghost limits = { λ _ q. none_limited (class_number q.class) };
}

// Two sources: one for each tier.
#[derive(Drop)]
pub struct Pair<M, D> {
    pub measured: M,
    pub default: D,
}

impl<M, D> Pair<M, D> {
    pub fn new(measured: M, default: D) -> Pair<M, D>
        ensures measured { result.measured ≡ measured }
        ensures default { result.default ≡ default }
    {
        Pair { measured, default }
    }
}

impl<M: Source, D: Source> Source for Pair<M, D> {
    ghost table = { λ s. by_tier (M.Source.table s.measured) (D.Source.table s.default) };

    fn ask(&mut self, question: Question) -> Option<Factor> {
        match question.tier {
            Tier::Measured => self.measured.ask(question),
            Tier::Default => self.default.ask(question),
        }
    }
}

impl<M: LimitedSource, D: LimitedSource> LimitedSource for Pair<M, D> {
    ghost limits = { λ s q. by_tier_limited (class_number q.class) (M.Source.table s.measured) (D.Source.table s.default) (asked_of q) (M.LimitedSource.limits s.measured q) (D.LimitedSource.limits s.default q) };
}
