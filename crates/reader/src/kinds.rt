// The kinds of nodes: document 01's "Tree", in its order.
ghost use Rattle.std.specs.Prelude.{◌≡◌, ◌≤◌};
ghost use Rattle.reader.specs.Tree.{packed};
ghost use Rattle.reader.specs.Kinds.{kind_as, KindOf};

#[derive(Clone, Copy)]
pub enum NodeKind {
    Plain,
    Negative,
    Call,
    Prefix,
    Infix,
    List,
    ListTail,
    Curly,
    EmptyList,
    EmptyCurly,
}

// A number that no kind has.
#[derive(Clone, Copy)]
pub struct UnknownKind;

impl TryFrom<usize> for NodeKind {
    type Error = UnknownKind;

    ghost try_from_gives = { KindOf };

    fn try_from(number: usize) -> Result<NodeKind, UnknownKind> {
        match number {
            0 => Ok(NodeKind::Plain),
            1 => Ok(NodeKind::Negative),
            2 => Ok(NodeKind::Call),
            3 => Ok(NodeKind::Prefix),
            4 => Ok(NodeKind::Infix),
            5 => Ok(NodeKind::List),
            6 => Ok(NodeKind::ListTail),
            7 => Ok(NodeKind::Curly),
            8 => Ok(NodeKind::EmptyList),
            9 => Ok(NodeKind::EmptyCurly),
            _ => Err(UnknownKind),
        }
    }
}

// A node's second number is its kind times this, plus its arity.
pub(crate) const KIND_UNIT: u16 = 1024;

pub(crate) fn packed(kind: NodeKind, arity: u16) -> u16
    requires { arity ≤ 1024 }
    ensures { result ≡ packed (kind_as kind) arity }
{
    (kind as u16) * KIND_UNIT + arity
}
