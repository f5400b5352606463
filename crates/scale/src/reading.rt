// What a scale is handed, and what it shows.

// A number from the weighing device, with its mark that the load is steady. No Option: the number counts either way.
#[derive(Clone, Copy)]
pub struct Sample {
    pub value: i32,
    pub steady: bool,
}

// The gross weight, and whether it is stable. No Option: there is a weight either way.
#[derive(Clone, Copy, PartialEq, Eq, Debug)]
pub struct Reading {
    pub gross: i32,
    pub stable: bool,
}
