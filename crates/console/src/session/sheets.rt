// Commands about sheets: write the roster as one, and read one.
use crate::records::{Record, opened};
use crate::session::Session;
use commands::{Trouble, Usage};
use grammar::Fields;
use hex::FromHexError;
use std::alloc::Global;

// The length of the longest sheet that is written: its first record, 8 lines, and its last record.
const MOST_BYTES: usize = 81;

// The bytes of the sheet that the words of a `read` spell: one word, or none for a sheet without bytes.
fn bytes(heap: Global, words: &[&str]) -> Result<Vec<u8>, Trouble> {
    let digits = match words {
        [] => "",
        [word] => *word,
        _ => return Err(Trouble::Usage(Usage::Read)),
    };
    match hex::decode(heap, digits) {
        Ok(bytes) => Ok(bytes),
        Err(FromHexError::OutOfMemory) => Err(Trouble::Memory),
        Err(_) => Err(Trouble::Usage(Usage::Read)),
    }
}

impl Session {
    // The sheet of the lines, with the supply that is open.
    pub(crate) fn write(&self) -> Result<String, Trouble> {
        let mut sheet = vec![in self.heap; 0u8; MOST_BYTES]?;
        let length = sheet::write(self.roster.lines(), self.fields, sheet.as_mut_slice())?;
        sheet.truncate(length);
        let hex = hex::encode(self.heap, sheet.as_slice())?;
        Ok(format!(in self.heap; "sheet {hex}\n")?)
    }

    // Reads the bytes of a sheet in place of the roster, and takes over what its records say beside its lines. The watch list is set
    // in full by each line. A refused sheet leaves no lines, on the whole processor.
    fn take(&mut self, sheet: &[u8]) -> Result<(), Trouble> {
        self.fields = Fields::whole();
        self.cuts.clear();
        sheet::read(&mut self.roster, sheet)?;
        if let Some((fields, records)) = opened(sheet) {
            self.fields = fields;
            for record in records {
                match record {
                    Record::Line => self.cuts.clear(),
                    Record::Cut(cut) => self.cuts.push(cut.certificate(self.heap)?)?,
                }
            }
        }
        Ok(())
    }

    // Reads the sheet that is spelled.
    pub(crate) fn read(&mut self, words: &[&str]) -> Result<String, Trouble> {
        let sheet = bytes(self.heap, words)?;
        self.take(sheet.as_slice())?;
        let many = self.roster.lines().len();
        Ok(format!(in self.heap; "read {many} lines\n")?)
    }
}
