// Drafts of recipes: any numbers, of which nothing is known yet.

// What is filled of one material: the target, how much before it each feed is shut, and how far off a fill may be.
#[derive(Clone, Copy, Default)]
pub struct Material {
    // the target A; 0 where the material is not used
    pub target: u32,
    // the coarse preact b
    pub coarse_preact: u32,
    // the fine preact C
    pub fine_preact: u32,
    // the tolerance d
    pub tolerance: u32,
}

#[derive(Clone, Copy, Default)]
pub struct FillDraft {
    pub first: Material,
    pub second: Material,
    // the zone Z: below it the hopper counts as empty
    pub zone: u32,
    // the times t0 to t7, in ticks
    pub times: [u32; 8],
    // the cycles since run after which the line rests; 0 means without end
    pub loops: u32,
    pub top_up: bool,
    pub auto_tare: bool,
    pub feed_permission: bool,
    pub discharge_permission: bool,
}

// The numbers of a sorting order, whose limits are held as an `L`.
#[derive(Clone, Copy)]
pub struct Sorting<L> {
    // the zone Z: an item comes on above it, and has left below it
    pub zone: u32,
    // the limits P1 to PN between the channels
    pub limits: L,
    // the correction c, in hundredths of a percent
    pub correction: u32,
    // the times t0 to t3, in ticks
    pub times: [u32; 4],
}

// A draft borrows its limits, as many as there are.
pub type SortDraft<'a> = Sorting<&'a [u32]>;
