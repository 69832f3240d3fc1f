//! The entries of matrices.
ghost use Rattle.std.specs.Prelude.{◌≡◌};

/// The seven values of an entry, the greatest first.
#[derive(Clone, Copy, Debug, PartialEq, Eq)]
pub enum Entry {
    One,
    HalfRoot3,
    Half,
    Zero,
    MinusHalf,
    MinusHalfRoot3,
    MinusOne,
}

/// The frames of a matrix.
#[derive(Clone, Copy, PartialEq, Eq)]
pub enum Frame {
    Plain,
    Hexagonal,
    Both,
}

impl Frame {
    ghost use Rattle.op_matrix.specs.View.{both_frame, hex_frame, plain_frame};

    /// Whether a matrix with these frames is plain.
    pub fn is_plain(self) -> bool
        ensures { result ≡ plain_frame self }
    {
        match self {
            Frame::Hexagonal => false,
            Frame::Plain | Frame::Both => true,
        }
    }

    /// Whether a matrix with these frames is hexagonal.
    pub fn is_hex(self) -> bool
        ensures { result ≡ hex_frame self }
    {
        match self {
            Frame::Plain => false,
            Frame::Hexagonal | Frame::Both => true,
        }
    }

    /// Whether a matrix with these frames is both, so diagonal.
    pub fn is_both(self) -> bool
        ensures { result ≡ both_frame self }
    {
        match self {
            Frame::Both => true,
            Frame::Plain | Frame::Hexagonal => false,
        }
    }
}
