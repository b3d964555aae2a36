// The file header block (clause 9.4.1), which comes first.
ghost use Rattle.std.specs.Prelude.{◌≡◌};
ghost use Rattle.fields.specs.Judged.{given};
ghost use Rattle.blocks.specs.Header.{has_units, data_size_of, version_of, sizes_of, units_of};
ghost use Rattle.blocks.specs.Header.{fields_of, rest_of, sized_of, judged_of, first_of};

use crate::head::{DATA_SIZE_AT, HEAD_SIZE, Head, extent_of, head_at, paddings, room};
use crate::kind::FILE_HEADER;
use fields::field::read_at;
use fields::limits::LARGEST_FILE;
use fields::refusal::{Fault, Refusal};

// Where the header's fields stand, one after the other.
const MAJOR_AT: usize = HEAD_SIZE;

const MINOR_AT: usize = MAJOR_AT + 2;

const PROFILE_AT: usize = MINOR_AT + 2;

const DECLARATION_SIZE_AT: usize = PROFILE_AT + 4;

const FILE_SIZE_AT: usize = DECLARATION_SIZE_AT + 4;

const ENCODING_AT: usize = FILE_SIZE_AT + 8;

const UNITS_AT: usize = ENCODING_AT + 4;

// The profile's bit for defined units.
const DEFINED_UNITS: u32 = 0x8;

// Bytes of the header's data, without the units scaling factor and with it.
const LEAST_DATA: u32 = 24;

const DATA_WITH_UNITS: u32 = 32;

// The header's fields after its major version, which is 0. The units scaling factor is the bit pattern of an F64, and 0 where the profile
// has no units.
#[derive(Clone, Copy, Debug, PartialEq, Eq)]
pub struct FileHeader {
    pub minor_version: u16,
    pub profile: u32,
    pub declaration_size: u32,
    pub file_size: u64,
    pub encoding: u32,
    pub units: u64,
}

// The first block of a file: its fields, its leading numbers, and where the next block starts.
#[derive(Clone, Copy, Debug, PartialEq, Eq)]
pub struct First {
    pub fields: FileHeader,
    pub head: Head,
    pub next: usize,
}

#[derive(Clone, Copy, Debug, PartialEq, Eq)]
struct Version {
    minor: u16,
    profile: u32,
}

#[derive(Clone, Copy, Debug, PartialEq, Eq)]
struct Sizes {
    declaration: u32,
    file: u64,
}

fn has_units(profile: u32) -> bool
    ensures { result ≡ has_units profile }
{
    profile / DEFINED_UNITS % 2 == 1
}

// Bytes of the data of a header with that profile.
fn data_size_of(profile: u32) -> u32
    ensures { result ≡ data_size_of profile }
{
    if has_units(profile) {
        DATA_WITH_UNITS
    } else {
        LEAST_DATA
    }
}

// Version and profile of the header.
fn version_fields(s: &[u8]) -> Result<Version, Refusal>
    ensures { given result ≡ version_of s.now }
{
    let major: u16 = read_at(s, MAJOR_AT)?;
    if major != 0 {
        return Err(Fault::BadHeader.at(MAJOR_AT));
    }
    let minor = read_at(s, MINOR_AT)?;
    let profile = read_at(s, PROFILE_AT)?;
    match profile {
        0 | 2 | 8 | 10 => Ok(Version { minor, profile }),
        _ => Err(Fault::BadProfile.at(PROFILE_AT)),
    }
}

// Declaration size and file size, which are judged by the length.
fn size_fields(s: &[u8]) -> Result<Sizes, Refusal>
    ensures { given result ≡ sizes_of s.now }
{
    let declaration: u32 = read_at(s, DECLARATION_SIZE_AT)?;
    if s.len() < declaration as usize {
        return Err(Fault::BadSize.at(DECLARATION_SIZE_AT));
    }
    let file: u64 = read_at(s, FILE_SIZE_AT)?;
    if file != s.len() as u64 {
        return Err(Fault::BadSize.at(FILE_SIZE_AT));
    }
    Ok(Sizes { declaration, file })
}

// The units scaling factor; 0 where the profile has none.
fn units_field(s: &[u8], profile: u32) -> Result<u64, Refusal>
    ensures { given result ≡ units_of s.now profile }
{
    if has_units(profile) {
        read_at(s, UNITS_AT)
    } else {
        Ok(0)
    }
}

// The fields after version and sizes, and all of them.
fn header_fields(s: &[u8], version: Version, sizes: Sizes) -> Result<FileHeader, Refusal>
    ensures { given result ≡ fields_of s.now version sizes }
{
    let encoding = read_at(s, ENCODING_AT)?;
    let units = units_field(s, version.profile)?;
    Ok(FileHeader {
        minor_version: version.minor,
        profile: version.profile,
        declaration_size: sizes.declaration,
        file_size: sizes.file,
        encoding,
        units,
    })
}

// The rest of the header block: room for meta data and paddings, and the paddings.
fn header_rest(s: &[u8], head: Head, fields: FileHeader) -> Result<First, Refusal>
    ensures { given result ≡ rest_of s.now head fields }
{
    let extent = extent_of(0, head);
    room(s.len(), 0, extent)?;
    paddings(s, extent)?;
    Ok(First {
        fields,
        head,
        next: extent.next,
    })
}

// The first block, whose version has been read: its data size, room for its data, and what follows.
fn sized_header(s: &[u8], head: Head, version: Version) -> Result<First, Refusal>
    ensures { given result ≡ sized_of s.now head version }
{
    if head.data_size != data_size_of(version.profile) {
        return Err(Fault::BadHeader.at(DATA_SIZE_AT));
    }
    if s.len() < HEAD_SIZE + head.data_size as usize {
        return Err(Fault::Truncated.at(HEAD_SIZE));
    }
    let sizes = size_fields(s)?;
    let fields = header_fields(s, version, sizes)?;
    header_rest(s, head, fields)
}

// The first block, whose leading numbers have been read.
fn judged_header(s: &[u8], head: Head) -> Result<First, Refusal>
    ensures { given result ≡ judged_of s.now head }
{
    if head.block_type != FILE_HEADER {
        return Err(Fault::BadHeader.at(0));
    }
    if s.len() < HEAD_SIZE + LEAST_DATA as usize {
        return Err(Fault::Truncated.at(HEAD_SIZE));
    }
    let version = version_fields(s)?;
    sized_header(s, head, version)
}

// The first block of a file.
pub fn first_block(file: &[u8]) -> Result<First, Refusal>
    ensures { given result ≡ first_of file.now }
{
    if LARGEST_FILE < file.len() {
        return Err(Fault::OverLimit.at(0));
    }
    let head = head_at(file, 0)?;
    judged_header(file, head)
}
