/// Which statements stand in a block, beside `if`.
#[derive(Clone, Copy)]
pub(crate) struct Rights {
    pub(crate) assigns: bool,
    pub(crate) activates: bool,
    pub(crate) emits: bool,
    pub(crate) breaks: bool,
}

pub(crate) const LOOP: Rights = Rights {
    assigns: true,
    activates: false,
    emits: true,
    breaks: true,
};

pub(crate) const TAIL: Rights = Rights {
    assigns: true,
    activates: false,
    emits: true,
    breaks: false,
};

pub(crate) const SPARSE: Rights = Rights {
    assigns: false,
    activates: false,
    emits: true,
    breaks: false,
};

pub(crate) const UPDATE: Rights = Rights {
    assigns: true,
    activates: true,
    emits: false,
    breaks: false,
};
