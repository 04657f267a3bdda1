/// What stands in a pattern: any number of characters, one character, or just this one.
#[derive(Clone, Copy)]
pub enum Piece {
    Any,
    One,
    Just(char),
}
