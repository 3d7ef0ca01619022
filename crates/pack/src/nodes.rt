// Nodes as numbers in a lent slice, four each, as the C interface has them.
ghost use Rattle.std.specs.Prelude.{◌≡◌, length};
ghost use Rattle.std.proofs.lemmas.List.Edits.{sets};
ghost use Rattle.pack.specs.Passes.{Inside, GivenAt, four, PutGiven};

// A node by its numbers; its spelling is a part of some bytes. The kind is a number too: the caller or the image may give one that is no kind's.
#[derive(Clone, Copy)]
pub struct Given {
    pub kind: usize,
    pub arity: usize,
    pub start: usize,
    pub size: usize,
}

// The node whose numbers start at `place`.
pub(crate) fn given_at(nodes: &[u32], place: usize) -> Given
    requires { Inside nodes.now place 4 }
    ensures { GivenAt nodes.now place result }
{
    Given {
        kind: nodes[place] as usize,
        arity: nodes[place + 1] as usize,
        start: nodes[place + 2] as usize,
        size: nodes[place + 3] as usize,
    }
}

// Its numbers, put down from `place` on.
pub(crate) fn put_given(it: Given, numbers: &mut [u32], place: usize)
    requires { PutGiven it (length numbers.old) place }
    ensures { numbers.new ≡ sets numbers.old place (four it) }
{
    numbers[place] = it.kind as u32;
    numbers[place + 1] = it.arity as u32;
    numbers[place + 2] = it.start as u32;
    numbers[place + 3] = it.size as u32;
}
