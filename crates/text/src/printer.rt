// The printer: one pass over the code by `look`, the same to count its text and to write it.
ghost use Rattle.std.specs.Prelude.{[], ◌∷◌};
ghost use Rattle.text.specs.Page.{Writes};
ghost use Rattle.text.specs.Around.{serials};
ghost use Rattle.text.specs.Printing.{text_of, Countable};

use crate::around::Around;
use crate::page::Page;
use code::construct::{Construct, Handle};
use store::meaning::Store;

impl Page<'_> {
    // Lays the text of the handle's code.
    pub fn put_code<S: Store>(&mut self, store: &S, handle: Handle)
        ensures { Writes self.old (text_of [] (S.Store.code store.now handle)) self.new }
    {
        self.put_code_in(store, handle, &Around::nothing());
    }

    // Lays the text of the handle's code, which stands in the bodies of the binders around.
    #[cycle(put_code_in)]
    fn put_code_in<S: Store>(&mut self, store: &S, handle: Handle, around: &Around)
        requires { Countable (serials around.now.binders) (S.Store.code store.now handle) }
        ensures { Writes self.old (text_of (serials around.now.binders) (S.Store.code store.now handle)) self.new }
    {
        let Some(construct) = store.look(handle) else {
            // no code: nothing is written, which is said of the page as of any writing
            return self.put(b"");
        };
        match construct {
            Construct::Number(value) => self.put_number(value),
            Construct::Truth(truth) => self.put_truth(truth),
            Construct::Input(input) => self.put_word_number(b"i", input),
            Construct::Variable(serial) => self.put_name(around.level_of(serial)),
            Construct::Join(operator, left, right) => {
                self.put(b"(");
                self.put_code_in(store, left, around);
                self.put_between(operator);
                self.put_code_in(store, right, around);
                self.put(b")");
            }
            Construct::Choose(condition, then, otherwise) => {
                self.put(b"(if ");
                self.put_code_in(store, condition, around);
                self.put(b" then ");
                self.put_code_in(store, then, around);
                self.put(b" else ");
                self.put_code_in(store, otherwise, around);
                self.put(b")");
            }
            Construct::Apply(function, argument) => {
                self.put(b"(");
                self.put_code_in(store, function, around);
                self.put(b" @ ");
                self.put_code_in(store, argument, around);
                self.put(b")");
            }
            Construct::Function(serial, parameter, body) => {
                self.put_fun_head(around.level(), parameter);
                self.put_body(store, body, around, serial);
                self.put(b")");
            }
            Construct::Let(serial, bound, body) => {
                self.put_let_head(around.level());
                self.put_code_in(store, bound, around);
                self.put(b" in ");
                self.put_body(store, body, around, serial);
                self.put(b")");
            }
        }
    }
    // Lays the text of a binder's body. A function of its own, and not inlined, since the binders around the body
    // would take room in each frame of `put_code_in`, whatever its construct.
    #[inline(never)]
    #[cycle(put_code_in)]
    fn put_body<S: Store>(&mut self, store: &S, body: Handle, around: &Around, serial: u16)
        requires { Countable (serial ∷ serials around.now.binders) (S.Store.code store.now body) }
        ensures { Writes self.old (text_of (serial ∷ serials around.now.binders) (S.Store.code store.now body)) self.new }
    {
        self.put_code_in(store, body, &around.body(serial));
    }
}
