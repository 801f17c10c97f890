// Where a search of the table of modes may start: at the first row for the mode.
ghost use Rattle.modes.specs.Start.{Starts};

// The place of the first row for each mode, 507 if it has none.
const FIRST: [usize; 121] = [
    0, 12, 507, 507, 507, 27, 30, 33, 36, 39, 42, 45, 48, 51, 54, 60, 153, 63, 156, 66, 159, 69,
    162, 75, 168, 78, 171, 81, 174, 84, 177, 87, 180, 90, 183, 96, 189, 99, 192, 105, 198, 111,
    204, 114, 207, 117, 210, 120, 213, 123, 216, 126, 219, 135, 228, 141, 234, 144, 237, 150, 243,
    246, 264, 282, 300, 318, 336, 354, 372, 390, 249, 267, 285, 303, 321, 339, 357, 375, 393, 255,
    273, 291, 309, 327, 345, 363, 381, 399, 261, 279, 297, 315, 333, 351, 369, 387, 405, 408, 507,
    411, 417, 420, 426, 429, 432, 435, 441, 444, 453, 459, 468, 474, 480, 486, 507, 489, 492, 495,
    498, 501, 504,
];

// A place of the table before which no row is for a mode.
pub fn first(m: u64) -> usize
    ensures { Starts m result }
{
    if m > 120 {
        return 0;
    }
    let i = m as usize;
    FIRST[i]
}
