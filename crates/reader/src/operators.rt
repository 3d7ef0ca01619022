// 01: "Operators (ISO table 7)": a constant table of 39 operators with name, priority and kind, in 01's order.
ghost use Rattle.std.specs.Prelude.{◌≡◌, ◌<◌};
ghost use Rattle.reader.specs.Names.{entry_of, entry_at};

// ISO 6.3.4.3: the kinds of operators.
#[derive(Clone, Copy)]
pub enum OperatorKind {
    Xfx,
    Xfy,
    Yfx,
    Fy,
    Fx,
}

// An operator: the bytes of its name, spaces after a shorter one; its kind; its priority. In this order it has no gaps, and the compiler, which builds the
// table anew at each use, puts several of these into one store.
#[derive(Clone, Copy)]
pub struct Operator(pub u8, pub u8, pub u8, pub OperatorKind, pub u16);

pub(crate) fn entry(place: usize) -> Operator
    requires { place < 39 }
    ensures { entry_of result ≡ entry_at place }
{
    OPERATORS[place]
}

const OPERATORS: [Operator; 39] = [
    Operator(b':', b'-', b' ', OperatorKind::Xfx, 1200),
    Operator(b'-', b'-', b'>', OperatorKind::Xfx, 1200),
    Operator(b':', b'-', b' ', OperatorKind::Fx, 1200),
    Operator(b'?', b'-', b' ', OperatorKind::Fx, 1200),
    Operator(b';', b' ', b' ', OperatorKind::Xfy, 1100),
    Operator(b'-', b'>', b' ', OperatorKind::Xfy, 1050),
    Operator(b',', b' ', b' ', OperatorKind::Xfy, 1000),
    Operator(b'\\', b'+', b' ', OperatorKind::Fy, 900),
    Operator(b'=', b' ', b' ', OperatorKind::Xfx, 700),
    Operator(b'\\', b'=', b' ', OperatorKind::Xfx, 700),
    Operator(b'=', b'=', b' ', OperatorKind::Xfx, 700),
    Operator(b'\\', b'=', b'=', OperatorKind::Xfx, 700),
    Operator(b'@', b'<', b' ', OperatorKind::Xfx, 700),
    Operator(b'@', b'=', b'<', OperatorKind::Xfx, 700),
    Operator(b'@', b'>', b' ', OperatorKind::Xfx, 700),
    Operator(b'@', b'>', b'=', OperatorKind::Xfx, 700),
    Operator(b'=', b'.', b'.', OperatorKind::Xfx, 700),
    Operator(b'i', b's', b' ', OperatorKind::Xfx, 700),
    Operator(b'=', b':', b'=', OperatorKind::Xfx, 700),
    Operator(b'=', b'\\', b'=', OperatorKind::Xfx, 700),
    Operator(b'<', b' ', b' ', OperatorKind::Xfx, 700),
    Operator(b'=', b'<', b' ', OperatorKind::Xfx, 700),
    Operator(b'>', b' ', b' ', OperatorKind::Xfx, 700),
    Operator(b'>', b'=', b' ', OperatorKind::Xfx, 700),
    Operator(b'+', b' ', b' ', OperatorKind::Yfx, 500),
    Operator(b'-', b' ', b' ', OperatorKind::Yfx, 500),
    Operator(b'/', b'\\', b' ', OperatorKind::Yfx, 500),
    Operator(b'\\', b'/', b' ', OperatorKind::Yfx, 500),
    Operator(b'*', b' ', b' ', OperatorKind::Yfx, 400),
    Operator(b'/', b' ', b' ', OperatorKind::Yfx, 400),
    Operator(b'/', b'/', b' ', OperatorKind::Yfx, 400),
    Operator(b'r', b'e', b'm', OperatorKind::Yfx, 400),
    Operator(b'm', b'o', b'd', OperatorKind::Yfx, 400),
    Operator(b'<', b'<', b' ', OperatorKind::Yfx, 400),
    Operator(b'>', b'>', b' ', OperatorKind::Yfx, 400),
    Operator(b'*', b'*', b' ', OperatorKind::Xfx, 200),
    Operator(b'^', b' ', b' ', OperatorKind::Xfy, 200),
    Operator(b'-', b' ', b' ', OperatorKind::Fy, 200),
    Operator(b'\\', b' ', b' ', OperatorKind::Fy, 200),
];
