// A recorded call on planes: what it was asked.
use crate::fault::Fault;
use crate::kind::Kind;
use crate::numbers::Numbers;
use frame::Shape;

// What a line says.
#[derive(Clone, Copy)]
pub struct Case {
    pub kind: Kind,
    pub share: u64,
    pub seed: u32,
    pub width: usize,
    pub height: usize,
    // The samples that the shape asks for, of luma and of chroma.
    pub luma: usize,
    // Numbers, since lines have such as are refused too.
    pub depth: u8,
    pub format: u8,
    pub chroma: usize,
    pub fault: Option<Fault>,
    // A lag, a sigma16, or which figure of a profile a worked case shows.
    pub argument: u64,
}

impl Case {
    pub fn read(numbers: &mut Numbers<'_>) -> Self {
        Case {
            kind: Kind::from(numbers.read::<u64>()),
            share: numbers.read(),
            seed: numbers.read(),
            width: numbers.read(),
            height: numbers.read(),
            luma: numbers.read(),
            depth: numbers.read(),
            format: numbers.read(),
            chroma: numbers.read(),
            fault: Fault::numbered(numbers.read()),
            argument: numbers.read(),
        }
    }

    pub fn shape(&self) -> Shape {
        Shape::whole(self.width, self.height, self.depth, self.format)
    }
}
