// One that speaks in a frame: a sender's number, and the message that it says.
#[derive(Drop)]
pub struct Speaker {
    pub number: u32,
    pub message: Vec<u32>,
}
