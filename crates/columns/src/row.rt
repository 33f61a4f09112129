/// A row of a source: whether it holds a value, its stored bytes, and where these begin in the source's data.
#[derive(Clone, Copy)]
pub struct Row<'a> {
    // No `Option` of bytes: a null row keeps its stored bytes.
    pub valid: bool,
    pub bytes: &'a [u8],
    pub base: u64,
}
