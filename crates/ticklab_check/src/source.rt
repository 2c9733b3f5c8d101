/// A file that was read.
#[derive(Drop)]
pub struct Source {
    /// Under this name it is told.
    pub name: String,
    pub bytes: Vec<u8>,
}
