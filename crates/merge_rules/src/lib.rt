// The rules of the merge, and the setting that they speak of; no function.
#![tactic(auto)]

// M13: the base curve of step 2.
#[derive(Clone, Copy)]
pub enum Curve {
    Straight,
    Table,
    Srgb,
}

// M9: identity, or the YCbCr transform of step 1.
#[derive(Clone, Copy)]
pub enum Colour {
    Identity,
    Transform,
}

// M15: whether step 3 has its matrix.
#[derive(Clone, Copy)]
pub enum Matrix {
    None,
    On,
}

// M16: whether a residual is lent.
#[derive(Clone, Copy)]
pub enum Residual {
    Absent,
    Present,
}

// All that is set for a merge. The weights are the matrix, row by row; they are not looked at without one.
#[derive(Clone, Copy)]
pub struct Setting {
    pub rb: u32,
    pub rh: u32,
    pub rr: u32,
    pub components: u32,
    pub base_transform: Colour,
    pub curve: Curve,
    pub matrix: Matrix,
    pub weights: [i16; 9],
    pub residual: Residual,
    pub residual_transform: Colour,
}
