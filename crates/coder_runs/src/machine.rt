// What a script runs on.
use coder::histogram::{SYMBOLS, fresh_histogram};
use coder::interval::Coder;
use coder::write::Writer;

pub const ROOM: usize = 4096;

pub const HISTOGRAMS: usize = 4;

// The first length bytes of the buffer are lent to every call. Histograms 0 and 1 are the writer's, 2 and 3 the reader's.
#[derive(Drop)]
pub struct Machine {
    pub length: usize,
    pub buffer: [u8; ROOM],
    pub writer: Writer,
    pub reader: Coder,
    pub histograms: [[u32; SYMBOLS]; HISTOGRAMS],
}

impl Machine {
    pub(crate) fn fresh(length: usize, byte: u8) -> Machine {
        Machine {
            length,
            buffer: [byte; ROOM],
            writer: Writer::fresh(),
            reader: Coder::fresh(),
            histograms: [fresh_histogram(); HISTOGRAMS],
        }
    }

    pub(crate) fn set_weight(&mut self, number: usize, symbol: usize, weight: u32) {
        if number < HISTOGRAMS && symbol < SYMBOLS {
            self.histograms[number][symbol] = weight;
        }
    }

    pub(crate) fn set_byte(&mut self, at: usize, byte: u8) {
        if at < ROOM {
            self.buffer[at] = byte;
        }
    }
}
