use crate::complaint::Complaint;
use crate::examined::Examined;
use crate::file::read_file;
use crate::request::Request;
use crate::single::Single;
use fault::Fault;
use machine::Machine;
use ring::Ring;
use sheet::Sheet;
use std::alloc::Global;

/// What a machine that one word names is read from.
#[derive(Drop)]
pub(crate) enum Source {
    Ring(Ring),
    Sheet(Vec<u8>),
}

impl Source {
    ghost use Rattle.std.specs.Prelude.{◌≡◌, ⊤, Some, None, IfOk, IfErr};
    ghost use Rattle.layout.specs.Judging.{sheet_fault, sheet_model};
    ghost use Rattle.podsjeal.specs.declared.source.Source.TheVariants.{Ring, Sheet};
    ghost use Rattle.podsjeal.specs.Loaded.{LoadedFor};

    /// Reads what a word names.
    pub(crate) fn load<'w>(rt: &HostRuntime, request: Request<'w>) -> Result<Source, Complaint<'w>>
        ensures { IfOk result (LoadedFor request.entry) }
    {
        match request {
            Request::Ring { sectors, turn, aim } => {
                Ok(Source::Ring(Ring::new(sectors, turn, aim)))
            }
            Request::Sheet(path) => Ok(Source::Sheet(read_file(rt, path)?)),
        }
    }

    /// The machine that it is.
    fn open(&self) -> Result<Single<'_>, Fault>
        ensures machine { IfOk result (λ m. ⟦<Single<'static> as Machine>⟧.model m ≡ elim self.now [ Source.Ring r ↦ ⟦<Ring as Machine>⟧.model r | Source.Sheet v ↦ sheet_model v.items ]) }
        ensures right { IfOk result (λ _. elim self.now [ Source.Ring r ↦ ⊤ | Source.Sheet v ↦ sheet_fault v.items ≡ None ]) }
        ensures fault { IfErr result (λ f. elim self.now [ Source.Ring r ↦ ⊥ | Source.Sheet v ↦ sheet_fault v.items ≡ Some f ]) }
    {
        match self {
            Source::Ring(ring) => Ok(Single::Ring(*ring)),
            Source::Sheet(bytes) => Ok(Single::Sheet(Sheet::try_from(bytes.as_slice())?)),
        }
    }

    /// The machine with its names.
    pub(crate) fn examined<'s, 'w>(
        &'s self,
        alloc: Global,
    ) -> Result<Examined<'s, Single<'s>>, Complaint<'w>> {
        let machine = self.open()?;
        let names = machine.listed(alloc)?;
        Ok(Examined { machine, names })
    }
}
