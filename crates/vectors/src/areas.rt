// What a row of the documents changed in guest memory. Two bytes of every sector of the disk are 0xee, as is memory that
// nobody has laid: so reading a sector changes 510 bytes.
use crate::guest::Bytes;
use crate::say::Words;
use std::io;
use std::ops::Range;

// The queue of 01 §6 and the header: descriptors, available ring, used ring, header.
const LAID: [Range<usize>; 4] = [
    0x1000..0x1080,
    0x2000..0x2016,
    0x3000..0x3046,
    0x4000..0x4010,
];

impl Bytes {
    // How many bytes of each of these areas are not as before.
    pub fn changed<const N: usize>(&self, before: &Bytes, areas: &[Range<usize>; N]) -> [usize; N] {
        let mut counts = [0; N];
        for (count, area) in counts.iter_mut().zip(areas) {
            *count = self.differ(before, area);
        }
        counts
    }

    // Nobody has laid anything: the queue, the header, and these places.
    pub fn clear(&mut self, places: &Range<usize>) {
        for area in &LAID {
            self.blank(area);
        }
        self.blank(places);
    }

    // Ends the line of a row whose data may go to these places, and clears what it laid.
    pub fn settle(
        &mut self,
        rt: &impl Print,
        before: &Bytes,
        places: &Range<usize>,
    ) -> io::Result<()> {
        let laid = self.changed(before, &LAID);
        let data = self.differ(before, places);
        println!(rt; ", changed{} {data}", Words(&laid))?;
        self.clear(places);
        Ok(())
    }
}
