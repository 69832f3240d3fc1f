//! The definitions of the limiting groups about z and of the tensors that they leave unchanged. They stand in `specs/`.
//! Source: P. Curie, J. Phys. Theor. Appl. 3 (1894) 393.
#![tactic(auto)]

/// A limiting group: all rotations about z, alone or with mirrors or twofold rotations.
#[derive(Clone, Copy, Debug, PartialEq, Eq, Drop)]
pub enum Curie {
    /// The rotations alone.
    Inf,
    /// With the mirrors that hold z.
    InfM,
    /// With the twofold rotations about the axes across z.
    Inf2,
    /// With the mirror across z.
    InfOverM,
    /// With all of these.
    InfOverMM,
}
