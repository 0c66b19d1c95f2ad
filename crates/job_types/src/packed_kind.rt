//! A collective in four bytes.

ghost use Rattle.std.specs.Prelude.{◌≡◌, ◌^◌, false};
ghost use Rattle.job_types.specs.Job.{has_bad_root};

use crate::kind::{Kind, Op};
use cube_shape::MAX_DIM;
use std::marker::Model;

// Which collective it is.
#[derive(Clone, Copy, Debug)]
pub(crate) enum Form {
    Spread,
    Gather,
    Total,
    Prefixes,
    Earlier,
}

// A collective whose root, if it has one, is a processor of a machine.
#[derive(Debug, Drop)]
pub(crate) struct PackedKind {
    form: Form,
    op: Op,
    root: u16,
}

impl Model for PackedKind {
    ghost use Rattle.job_types.specs.declared.kind.Kind.{Kind as KindData};
    ghost use Rattle.job_types.specs.Inner.PackedKind.{kind_by};

    ghost Value = { KindData };

    ghost view = { λ p. kind_by p.form p.op p.root };
}

impl PackedKind {
    // Packs a collective.
    pub(crate) fn new(kind: Kind) -> Self
        requires { has_bad_root kind (2 ^ MAX_DIM) ≡ false }
        ensures { result ≡ kind }
    {
        let (form, op, root) = match kind {
            Kind::Broadcast { root } => (Form::Spread, Op::Add, root as u16),
            Kind::Reduce { op, root } => (Form::Gather, op, root as u16),
            Kind::AllReduce { op } => (Form::Total, op, 0),
            Kind::Scan { op } => (Form::Prefixes, op, 0),
            Kind::ExScan { op } => (Form::Earlier, op, 0),
        };
        PackedKind { form, op, root }
    }

    // Returns the collective.
    pub(crate) fn kind(&self) -> Kind
        ensures { result ≡ self.now }
    {
        let op = self.op;
        let root = u64::from(self.root);
        match self.form {
            Form::Spread => Kind::Broadcast { root },
            Form::Gather => Kind::Reduce { op, root },
            Form::Total => Kind::AllReduce { op },
            Form::Prefixes => Kind::Scan { op },
            Form::Earlier => Kind::ExScan { op },
        }
    }
}
