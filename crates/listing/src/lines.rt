// The lines of a listing, from what a sound volume holds.
#![tactic(auto, using(crate::proofs::LinesLaws::client_length, crate::proofs::LinesLaws::file_length))]

ghost use Rattle.std.specs.Prelude.{length};
ghost use Rattle.volume.specs.Volumes.{view};
ghost use Rattle.volume.specs.Listing.{client_line, file_line, client_lines, file_lines};
ghost use Rattle.text.specs.Writes.{HasRoom, Wrote};

use sector::File;
use text::Writer;
use volume::{FormedVolume, TabledVolume};

// The line of client k, whose record has this state and so many entries.
fn client_line(w: &mut Writer<'_>, k: u8, state: u8, count: u8)
    requires { HasRoom w.old (length (client_line k state count)) }
    ensures { Wrote (client_line k state count) w.old w.new }
{
    w.put_field(b"kiln ", k);
    w.put_state(state);
    w.put_field(b" ", count);
    w.put(b"\n");
}

// The lines of all clients.
pub fn list_clients(v: FormedVolume<'_>, w: &mut Writer<'_>)
    requires { HasRoom w.old (length (client_lines (view v.bytes.now))) }
    ensures { Wrote (client_lines (view v.entry.bytes.now)) w.old w.new }
{
    for k in 1..=v.clients() {
        let c = v.client(k);
        client_line(w, k, c.state(), c.entry_count());
    }
}

// The line of file f, with its holder, pages and slots.
fn file_line(w: &mut Writer<'_>, f: u8, holder: u8, x: File)
    requires { HasRoom w.old (length (file_line f holder x.pages x.slots)) }
    ensures { Wrote (file_line f holder x.pages x.slots) w.old w.new }
{
    w.put_field(b"file ", f);
    w.put_field(b" kiln ", holder);
    w.put_field(b" pages ", x.pages);
    w.put_field(b" sectors ", x.slots);
    w.put(b"\n");
}

// The lines of all files.
// Like `list_clients`, but each line has other fields: one over a closure for the line would be no plainer.
pub fn list_files(v: TabledVolume<'_>, w: &mut Writer<'_>)
    requires { HasRoom w.old (length (file_lines (view v.bytes.now))) }
    ensures { Wrote (file_lines (view v.entry.bytes.now)) w.old w.new }
{
    for f in 1..=v.files() {
        let x = v.file(f);
        file_line(w, f, x.holder(), x.shape());
    }
}
