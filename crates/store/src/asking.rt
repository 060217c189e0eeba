// A query of a store.
ghost use Rattle.std.specs.Prelude.{◌≡◌};
ghost use Rattle.steps.specs.Outcomes.{SameAllowance};
ghost use Rattle.store.specs.Views.{call_of, contents};
ghost use Rattle.store_laws.specs.LaidOut.{QueryLaidOut};
ghost use Rattle.store_plan.specs.Queries.{queried};

use crate::fault::Fault;
use crate::store::Store;
use blocks::device::Device;
use messages::kind::Kind;

impl<D: Device, K: Kind> Store<D, K> {
    // The body of a query.
    fn ask(&mut self, key: u32) -> Result<(Option<u64>, u32), Fault<D::Fault>>
        ensures value { call_of D.Device result self.new ≡ queried K.Kind.algebra (contents D.Device self.old) (contents D.Device self.old).root key }
        ensures allowance { SameAllowance D.Device self.old.device self.new.device }
    {
        self.check_open()?;
        let found = self
            .workspace
            .bench
            .query::<D, K>(&mut self.device, &self.workspace.root, key)?;
        Ok(found)
    }

    // What a key holds, and how many blocks were read to tell. A fault in reading leaves the store open.
    pub fn query(&mut self, key: u32) -> Result<(Option<u64>, u32), Fault<D::Fault>>
        ensures value { call_of D.Device result self.new ≡ queried K.Kind.algebra (contents D.Device self.old) (contents D.Device self.old).root key }
        ensures allowance { SameAllowance D.Device self.old.device self.new.device }
        ensures laid_out { QueryLaidOut K.Kind.algebra (contents D.Device self.old) key (call_of D.Device result self.new) }
    {
        self.ask(key)
    }
}
