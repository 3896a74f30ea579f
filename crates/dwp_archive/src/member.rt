//! Members, and their names.

ghost use Rattle.std.specs.Prelude.{take, ◌<◌, ◌==◌, ◌≡◌};
ghost use Rattle.std.specs.List.{before_first};
ghost use Rattle.dwp_archive.specs.{Names.long_name, Names.own_name, Names.short_name, View.member};

use memchr::memchr;

/// How a member's name stands in the archive.
#[derive(Clone, Copy, Debug, PartialEq, Eq, Hash)]
pub enum NameForm {
    /// In the header.
    Short,
    /// In the table of names.
    Long,
    /// In front of the content.
    Own,
}

/// A member of an archive: its name and its content, as bytes of the archive.
#[derive(Clone, Copy, Debug, PartialEq, Eq, Hash)]
pub struct Member<'a> {
    pub(crate) form: NameForm,
    pub(crate) named: &'a [u8],
    pub(crate) content: &'a [u8],
}

/// The bytes in front of the first that is this one; all where none is.
fn up_to(bytes: &[u8], end: u8) -> &[u8]
    ensures { result.now ≡ before_first (λ b. b == end) bytes.now }
{
    match memchr(end, bytes) {
        Some(n) => bytes.split_at(n).0,
        None => bytes,
    }
}

/// As many bytes from the beginning, or all where there are fewer.
#[tactic(auto, using(std::proofs::lemmas::List::take_min))]
fn front(bytes: &[u8], count: usize) -> &[u8]
    ensures { result.now ≡ take count bytes.now }
{
    bytes.split_at(count.min(bytes.len())).0
}

/// The name that stands in a header.
#[tactic(auto, unfolding(crate::specs::Names::short_name))]
pub(crate) fn short_name(field: &[u8]) -> &[u8]
    ensures { result.now ≡ short_name field.now }
{
    let name = up_to(field, b'/');
    if name.len() < field.len() {
        return name;
    }
    up_to(field, b' ')
}

/// The name that the table of names has from here on.
#[tactic(auto, unfolding(crate::specs::Names::long_name))]
fn long_name(names: &[u8]) -> &[u8]
    ensures { result.now ≡ long_name names.now }
{
    let line = up_to(names, b'\n');
    if line.len() > 0 && line[line.len() - 1] == b'/' {
        return line.split_at(line.len() - 1).0;
    }
    line
}

/// The name that stands in front of a content.
#[tactic(auto, unfolding(crate::specs::Names::own_name))]
pub(crate) fn own_name(bytes: &[u8]) -> &[u8]
    ensures { result.now ≡ own_name bytes.now }
{
    up_to(bytes, 0)
}

impl<'a> Member<'a> {
    /// The member's name.
    #[tactic(auto, unfolding(crate::specs::View::member))]
    pub fn name(&self) -> &'a [u8]
        ensures { result.now ≡ (member self.now).name }
    {
        match self.form {
            NameForm::Short => short_name(self.named),
            NameForm::Long => long_name(self.named),
            NameForm::Own => own_name(self.named),
        }
    }

    /// The beginning of the member's name: as many bytes as `most`, or all where it is shorter. No
    /// more of a long name is read than that.
    #[tactic(auto, unfolding(crate::specs::View::member), using(crate::proofs::Beginnings::long_begins, crate::proofs::Beginnings::own_begins))]
    pub fn beginning_of_name(&self, most: usize) -> &'a [u8]
        requires { most < usize.MAX }
        ensures { result.now ≡ take most (member self.now).name }
    {
        match self.form {
            NameForm::Short => front(short_name(self.named), most),
            NameForm::Long => front(long_name(front(self.named, most + 1)), most),
            NameForm::Own => own_name(front(self.named, most)),
        }
    }

    /// The member's content.
    #[tactic(auto, unfolding(crate::specs::View::member))]
    pub fn content(&self) -> &'a [u8]
        ensures { result.now ≡ (member self.now).content }
    {
        self.content
    }
}
