// The sheets that are tried.
// E1's sheet: the rule x < 25.
pub fn first_example() -> [u8; 17] {
    [1, 0, 1, 0, 1, 1, 4, 0, 0, 0, 0, 0, 4, 25, 0, 0, 0]
}

// The same with a byte behind it.
pub fn longer_example() -> [u8; 18] {
    [1, 0, 1, 0, 1, 1, 4, 0, 0, 0, 0, 0, 4, 25, 0, 0, 0, 0]
}

// Four parts over two channels: part 0 is "channel 1 one position back < 25", 1 is not 0, 2 is 0 until 1, 3 is 2 or 1.
pub fn four_parts() -> [u8; 56] {
    [
        4, 0, 2, 0, 1, 3, 7, 5, 1, 3, 1, 0, 0, 0, 0, 4, 25, 0, 0, 0, 0, 0, 0, 0, 0, 0, 0, 0, 0, 0,
        0, 0, 0, 0, 1, 0, 0, 0, 0, 0, 0, 0, 0, 0, 2, 0, 1, 0, 0, 0, 0, 0, 0, 0, 0, 0,
    ]
}

// One window over two channels: channel 1 at its present position, from minute 10079 to before 10078.
pub fn one_window() -> [u8; 17] {
    [1, 0, 2, 0, 13, 1, 4, 1, 0, 0, 0, 95, 39, 94, 39, 0, 0]
}

// One pinned reading over two channels: channel 1 at its present position.
pub fn one_pinned() -> [u8; 17] {
    [1, 0, 2, 0, 14, 1, 4, 1, 0, 0, 0, 0, 0, 0, 0, 0, 0]
}

// So many bytes from `at` on set to x, as far as they are there.
pub fn fill(sheet: &mut [u8], at: usize, count: usize, x: u8) {
    for byte in sheet.iter_mut().skip(at).take(count) {
        *byte = x;
    }
}
