// The moves between the forms: the nodes stay, byte for byte.
ghost use Rattle.pack.specs.Moves.{MoveOutcome, MoveUp, MoveDown};
ghost use Rattle.pack.specs.Passes.{SomePack, PackMoved, version_byte};

use crate::answers::Unpacked;
use crate::format::{Form, Version};
use crate::reading::judge;
use crate::writing::{begin_pack, put_part};
use lexer::Fault;

// A pack of so many nodes, in the form `to`, if it fits.
fn move_pack(image: &[u8], pack: Unpacked, to: Form, out: &mut [u8]) -> Result<usize, Fault>
    requires { SomePack image.now pack }
    ensures { PackMoved image.now pack.form to out.old result out.new }
{
    let from = pack.form.first_node();
    let size = image.len() - from;
    let length = begin_pack(to, pack.count, size, out)?;
    put_part(image, from, size, out, to.first_node());
    Ok(length)
}

// A pack of this version, in the form `to`.
fn move_to(image: &[u8], version: Version, to: Form, out: &mut [u8]) -> Result<usize, Fault>
    ensures { MoveOutcome (version_byte version) to image.now out.old result out.new }
{
    let pack = judge(image, version)?;
    move_pack(image, pack, to, out)
}

// From form 1 to form 2, with the line not known.
pub fn move_up(image: &[u8], out: &mut [u8]) -> Result<usize, Fault>
    ensures { MoveUp image.now out.old result out.new }
{
    move_to(image, Version::One, Form::Two(0), out)
}

// From form 2 to form 1, without the line.
pub fn move_down(image: &[u8], out: &mut [u8]) -> Result<usize, Fault>
    ensures { MoveDown image.now out.old result out.new }
{
    move_to(image, Version::Two, Form::One, out)
}
