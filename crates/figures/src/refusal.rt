// What a refusal tells its caller.
ghost use Rattle.std.specs.Prelude.{◌≡◌};
ghost use Rattle.figures.specs.Refusals.{letter_of};

// The layer that raised a fault.
#[derive(Clone, Copy, PartialEq, Eq, Debug)]
pub enum Layer {
    Figures,
    Book,
    Session,
    Program,
}

// The field is 1 for price or bid, 2 for its pieces, 3 for ask, 4 for its pieces, 5 for sender or
// seconds, else 0; for a notice it is the place of the number.
#[derive(Clone, Copy, PartialEq, Eq, Debug)]
pub struct Refusal {
    pub number: u32,
    pub layer: Layer,
    pub field: u32,
}

// The letter that stands for the layer in a record.
impl From<Layer> for u8 {
    ghost from_gives = { λ layer letter. letter ≡ letter_of layer };

    fn from(layer: Layer) -> u8 {
        match layer {
            Layer::Figures => b'F',
            Layer::Book => b'B',
            Layer::Session => b'S',
            Layer::Program => b'P',
        }
    }
}
