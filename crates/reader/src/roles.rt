// What a name may be to its neighbours: its roles as an operator, each with its priority.
#[derive(Clone, Copy)]
pub enum Prefix {
    Fx(u16),
    Fy(u16),
}

#[derive(Clone, Copy)]
pub enum Infix {
    Xfx(u16),
    Xfy(u16),
    Yfx(u16),
}

#[derive(Clone, Copy)]
pub struct Roles {
    pub minus: bool,
    pub prefix: Option<Prefix>,
    pub infix: Option<Infix>,
}

pub const NO_ROLES: Roles = Roles {
    minus: false,
    prefix: None,
    infix: None,
};
