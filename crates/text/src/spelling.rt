// The parts of a text that hold no code.
ghost use Rattle.std.specs.Prelude.{◌≡◌, ◌++◌, codes, decimal};
ghost use Rattle.code.specs.Text.{word, name, between, fun_head, let_head};
ghost use Rattle.text.specs.Page.{Writes};

use crate::page::Page;
use code::operator::Operator;
use code::types::Base;

impl Page<'_> {
    pub(crate) fn put_truth(&mut self, truth: bool)
        ensures { Writes self.old (word truth) self.new }
    {
        if truth {
            self.put(b"true");
        } else {
            self.put(b"false");
        }
    }

    // The name of a binder that stands in `level` bodies.
    pub(crate) fn put_name(&mut self, level: usize)
        ensures { Writes self.old (name level) self.new }
    {
        self.put_word_number(b"v", level);
    }

    // An operator between its operands.
    pub(crate) fn put_between(&mut self, operator: Operator)
        ensures { Writes self.old (between operator) self.new }
    {
        self.put(&[b' ', operator.sign(), b' ']);
    }

    pub(crate) fn put_fun_head(&mut self, level: usize, parameter: Base)
        ensures { Writes self.old (fun_head (name level) parameter) self.new }
    {
        self.put(b"(fun ");
        self.put_name(level);
        self.put(&[b':', parameter.letter(), b' ', b'.', b' ']);
    }

    pub(crate) fn put_let_head(&mut self, level: usize)
        ensures { Writes self.old (let_head (name level)) self.new }
    {
        self.put(b"(let ");
        self.put_name(level);
        self.put(b" = ");
    }
}
