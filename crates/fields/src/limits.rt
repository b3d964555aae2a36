// The limits of document 01, "Sizes".

// any number is at most this: ANY in the tables of rules
pub const LARGEST_U32: u32 = 0xFFFFFFFF;

// bytes of a file, of mesh data, of a coder's buffer
pub const LARGEST_FILE: usize = 16777216;

// bytes of a file that the programs take
pub const LARGEST_PROGRAM_FILE: usize = 65536;

// bytes of a name
pub const LONGEST_NAME: usize = 255;

// faces of a mesh, and entries of a pool
pub const LARGEST_COUNT: u32 = 65536;

// steps of a climb list
pub const MOST_STEPS: u32 = 4096;

// moves of a step
pub const MOST_MOVES: u32 = 64;

// new faces of a step
pub const MOST_NEW_FACES: u32 = 64;
