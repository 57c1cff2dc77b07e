// The reader: a text that is not too long, and the place in it of the line that comes next.
ghost use Rattle.std.specs.Prelude.{◌≡◌, ◌+◌, ◌<◌, ◌≤◌, ◌∷◌, length};
ghost use Rattle.tree.specs.Grown.{growth};
ghost use Rattle.tree.specs.Growth.{finish as at_finish};
ghost use Rattle.script.specs.Reading.{grow as grow_line};
ghost use Rattle.script.specs.Steps.{Within, in_body, Next, Looked, Stopped, Grown, BodyRead, Closed, Whole, AtEnd};

use crate::faults::ScriptFault;
use crate::look::Look;
use lines::{Form, LineFault, Place, before, read_line};
use tree::{Growing, Tree, TreeFault};

#[derive(Drop)]
pub(crate) struct Reader<'a> {
    pub(crate) text: &'a [u8],
    pub(crate) place: Place,
    ghost within: { Within text.now place },
}

// The line at the place, which then moves behind it; none at the end of the text.
// It is told the reader's fields one by one, since a look borrows the place alone.
fn next_line(text: &[u8], place: &mut Place) -> Result<Option<Form>, LineFault>
    requires within { Within text.now place.old }
    ensures after { Next text.now place.old result place.new }
    ensures within { Within text.now place.new }
{
    let here = *place;
    if here.byte >= text.len() {
        return Ok(None);
    }
    let rest = &text[here.byte..];
    let n = before(rest, b'\n');
    let form = read_line(&rest[..n], n < rest.len(), here)?;
    *place = Place {
        line: here.line + 1,
        byte: here.byte + n + 1,
    };
    Ok(Some(form))
}

// A line that goes on with the body; none at its `done`.
fn of_body(form: Option<Form>) -> Option<Form>
    ensures result { result ≡ in_body form }
{
    form.filter(|form| *form != Form::Done)
}

// What a form does to the tree, or the fault of the line at the place.
fn grow(tree: &mut Growing, form: Form, place: Place) -> Result<(), ScriptFault>
    ensures after { Grown (grow_line form (growth tree.old)) place result (growth tree.new) }
{
    let grown = match form {
        Form::Job(steps) => tree.job(false, steps),
        Form::Fail(steps) => tree.job(true, steps),
        Form::Make => tree.make(),
        Form::Done => tree.done(),
        Form::Wait => {
            tree.wait();
            Ok(())
        }
    };
    grown.map_err(|fault| ScriptFault::OfTree(fault, place))
}

impl Reader<'_> {
    // The next line, if it is there and goes on with the body that is read; the place stays.
    fn look(&mut self) -> Result<Option<Form>, LineFault>
        ensures result { Looked self.old.text.now self.old.place result }
        ensures unaltered { self.new ≡ self.old }
    {
        let saved = self.place;
        let look = Look {
            place: &mut self.place,
            saved,
        };
        let form = next_line(self.text, look.place)?;
        Ok(of_body(form))
    }

    // The lines of a body, up to its `done` or the end of the text, with so many levels left.
    fn body(&mut self, tree: &mut Growing, levels: u32) -> Result<(), ScriptFault>
        requires left { levels + length (growth tree.old).outer ≡ 8 }
        ensures result { BodyRead self.old.text.now (growth tree.old) self.old.place result (growth tree.new) self.new.place }
        ensures unaltered { self.new.text ≡ self.old.text }
    {
        while let Some(form) = self.look()? {
            let place = self.place;
            next_line(self.text, &mut self.place)?;
            grow(tree, form, place)?;
            if let Form::Make = form {
                self.body(tree, levels - 1)?;
                self.close(tree)?;
            }
        }
        Ok(())
    }

    // The `done` of a nested make.
    fn close(&mut self, tree: &mut Growing) -> Result<(), ScriptFault>
        requires stopped { Stopped self.old.text.now self.old.place }
        requires nested { 0 < length (growth tree.old).outer }
        ensures result { Closed self.old.text.now (growth tree.old) self.old.place result (growth tree.new) self.new.place }
        ensures unaltered { self.new.text ≡ self.old.text }
    {
        let place = self.place;
        let Some(form) = next_line(self.text, &mut self.place)? else {
            return Err(ScriptFault::OfTree(TreeFault::Done, place));
        };
        grow(tree, form, place)
    }

    // The whole text, from the place on.
    pub(crate) fn whole(mut self, mut tree: Growing) -> Result<Tree, ScriptFault>
        requires top { length (growth tree).outer ≡ 0 }
        ensures result { Whole self.entry.text.now (growth tree) self.entry.place result }
    {
        self.body(&mut tree, 8)?;
        let place = self.place;
        if let Some(form) = next_line(self.text, &mut self.place)? {
            grow(&mut tree, form, place)?;
        }
        finish(tree, self.place)
    }
}

// The end of the text, at this place.
fn finish(tree: Growing, place: Place) -> Result<Tree, ScriptFault>
    ensures result { AtEnd (at_finish (growth tree)) place result }
{
    tree.finish()
        .map_err(|fault| ScriptFault::OfTree(fault, place))
}
