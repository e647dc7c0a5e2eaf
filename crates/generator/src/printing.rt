// The call that prints.
use crate::fault::GeneratorFault;
use crate::generator::Generator;
use store::meaning::Store;
use text::page::Page;

impl<S: Store> Generator<S> {
    // Writes a closed code's text and a byte 10 into the output from a place on, and answers the end; a text that does
    // not fit writes nothing. The two become a page only once the place is judged.
    // Counting, judging and writing stand here as in the report: what is judged and refused differs.
    pub fn print(
        &self,
        cell: u8,
        output: &mut [u8],
        place: usize,
    ) -> Result<usize, GeneratorFault> {
        if place > output.len() {
            return Err(GeneratorFault::BadArgument);
        }
        let [piece] = self.table.read_each([cell])?;
        if !piece.names.is_empty() {
            return Err(GeneratorFault::NotClosed);
        }
        let mut count = Page::new(&mut [], 0);
        count.put_code(&self.store, piece.handle);
        if output.len() - place <= count.place() {
            return Err(GeneratorFault::ShortOutput);
        }
        let mut page = Page::new(output, place);
        page.put_code(&self.store, piece.handle);
        page.put(b"\n");
        Ok(page.place())
    }
}
