//! A generic mapping as C passes it.

/// What the four generic rights stand for, as masks that aren't tested yet ([MS-DTYP] 2.4.3).
#[repr(C)]
#[derive(Clone, Copy)]
pub struct Mapping {
    pub read: u32,
    pub write: u32,
    pub execute: u32,
    pub all: u32,
}
