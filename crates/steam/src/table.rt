ghost use Rattle.std.specs.Prelude.{◌<◌, ◌⊎◌, MatchOption};
ghost use Rattle.steam.specs.Line.{Neighbours};

// An absolute pressure in kPa, and the enthalpy of saturated steam there in hundredths of kJ/kg.
type Row = (u32, u32);

// By rising pressure.
const ROWS: [Row; 72] = [
    (1, 251380),
    (2, 253320),
    (3, 254520),
    (4, 255410),
    (5, 256120),
    (6, 256710),
    (7, 257220),
    (8, 257670),
    (9, 258080),
    (10, 258440),
    (15, 259890),
    (20, 260960),
    (25, 261810),
    (30, 262530),
    (40, 263680),
    (50, 264500),
    (60, 265360),
    (70, 266020),
    (80, 266600),
    (90, 267110),
    (100, 267570),
    (120, 268380),
    (140, 269080),
    (160, 269680),
    (180, 270210),
    (200, 270690),
    (250, 271720),
    (300, 272550),
    (350, 273250),
    (400, 273850),
    (450, 274380),
    (500, 274850),
    (600, 275640),
    (700, 276290),
    (800, 276840),
    (900, 277300),
    (1000, 277700),
    (1100, 278040),
    (1200, 278340),
    (1300, 278600),
    (1400, 278840),
    (1500, 279040),
    (1600, 279220),
    (1700, 279380),
    (1800, 279510),
    (1900, 279640),
    (2000, 279740),
    (2200, 279910),
    (2400, 280040),
    (2600, 280120),
    (2800, 280170),
    (3000, 280190),
    (3500, 280130),
    (4000, 279940),
    (5000, 279280),
    (6000, 278330),
    (7000, 277140),
    (8000, 275750),
    (9000, 274180),
    (10000, 272440),
    (11000, 270540),
    (12000, 268480),
    (13000, 266240),
    (14000, 263830),
    (15000, 261160),
    (16000, 258270),
    (17000, 255080),
    (18000, 251440),
    (19000, 247010),
    (20000, 241390),
    (21000, 234020),
    (22000, 219250),
];

// The rows between which a pressure lies; a row's own pressure lies between it and the row before, the first row's between the first two.
pub(crate) fn rows_about(kilopascals: u32) -> Option<(Row, Row)>
    ensures { MatchOption result ((kilopascals < 1) ⊎ (22000 < kilopascals)) (λ r. Neighbours kilopascals r.0 r.1) }
{
    let place = ROWS[1..].partition_point(|row| row.0 < kilopascals);
    let &[lower, upper, ..] = &ROWS[place..] else {
        return None;
    };
    if kilopascals < lower.0 {
        return None;
    }
    Some((lower, upper))
}
