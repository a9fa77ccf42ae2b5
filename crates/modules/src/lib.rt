// Modules: a document is three documents of the kind below, and a patch changes one of them.
#![tactic(auto)]

ghost use Rattle.std.specs.Prelude.{◌≡◌, ◌*◌};
ghost use Rattle.kinds.specs.Bounded.{Applied};
ghost use Rattle.kinds.specs.Slots.{Around};
ghost use Rattle.modules.specs.Proofs.ModuleLaws.{modules_lawful};
ghost use Rattle.modules.specs.Modules.{modules as the_modules};

use kinds::answers::{Clash, Failure};
use kinds::counts::{roomy, total};
use kinds::kind::Kind;

// The number of a module: 0 basic, 1 winch, 2 tiller. No enum, so that one that no module has can be told and refused.
#[derive(Clone, Copy, Debug, PartialEq, Eq)]
pub struct Module(pub u8);

// A patch of the kind below, in a module.
#[derive(Clone, Copy, Debug, PartialEq, Eq)]
pub struct InModule<P> {
    pub module: Module,
    pub patch: P,
}

#[derive(Clone, Copy, Debug, PartialEq, Eq)]
pub enum ModuleFault<F> {
    // There is no module of this number.
    NoModule(Module),
    // What the patch found wrong in this module.
    Inside(Module, F),
}

// The kind of documents with three modules of the kind K.
pub struct Modules<K> {
    below: K,
}

const COUNT: u8 = 3;

impl<K: Kind> Kind for Modules<K> {
    type Patch = InModule<K::Patch>;

    type Fault = ModuleFault<K::Fault>;

    ghost theory = { the_modules K.Kind.theory };

    ghost lawful = { modules_lawful K.Kind.theory K.lawful };

    fn words() -> u32 {
        total(COUNT as u32, K::words(), 0)
    }

    fn writable(p: InModule<K::Patch>) -> bool {
        p.module.0 < COUNT && K::writable(p.patch)
    }

    fn grows_by(p: InModule<K::Patch>) -> u32 {
        K::grows_by(p.patch)
    }

    fn invert(p: InModule<K::Patch>) -> InModule<K::Patch> {
        InModule {
            patch: K::invert(p.patch),
            ..p
        }
    }

    fn commute(
        p: InModule<K::Patch>,
        q: InModule<K::Patch>,
    ) -> Result<(InModule<K::Patch>, InModule<K::Patch>), Clash> {
        if p.module != q.module {
            return Ok((q, p));
        }
        let (second, first) = K::commute(p.patch, q.patch)?;
        Ok((
            InModule { patch: second, ..q },
            InModule { patch: first, ..p },
        ))
    }

    // Lends the kind below the words of the one module.
    fn apply(p: InModule<K::Patch>, run: &mut [u32]) -> Result<(), Failure<ModuleFault<K::Fault>>>
        ensures applied { Applied (the_modules K.Kind.theory) p run.old result run.new }
        ensures others { Around (p.«module».0 * K.Kind.theory.width) K.Kind.theory.width run.old run.new }
    {
        if !roomy(run, Self::words()) {
            return Err(Failure::Length);
        }
        if p.module.0 >= COUNT {
            return Err(Failure::Fault(ModuleFault::NoModule(p.module)));
        }
        let width = K::words() as usize;
        let at = p.module.0 as usize * width;
        K::apply(p.patch, &mut run[at..at + width]).map_err(|failure| failure.map(
            |fault| ModuleFault::Inside(p.module, fault),
        ))
    }
}
