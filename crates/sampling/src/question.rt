// What *Left* and *Draw* are asked: numbers from outside, as they come.
#[derive(Clone, Copy)]
pub struct Question {
    pub length: u64,
    pub voice: u64,
}
