// What stands at the end of a list of calls.

#[derive(Drop)]
pub struct Summary {
    pub text: Vec<u8>,
    pub markers: [usize; 16],
    // how many bytes the window leaves out at the text's front and at its end
    pub before: usize,
    pub behind: usize,
    // how many spans there are, and entries and groups of the undo list
    pub spans: usize,
    pub entries: usize,
    pub groups: usize,
}
