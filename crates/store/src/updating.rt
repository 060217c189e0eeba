// An update of a store.
ghost use Rattle.std.specs.Prelude.{◌≡◌, ◌*◌, true, is_ok, Some};
ghost use Rattle.bridge.specs.Stored.{WordFits};
ghost use Rattle.nodes.specs.Roots.{view_root};
ghost use Rattle.steps.specs.Allowances.{Spent};
ghost use Rattle.steps.specs.Outcomes.{allowance_of, SameAllowance, Spends};
ghost use Rattle.store.specs.Views.{answer, call_of, contents};
ghost use Rattle.store_laws.specs.LaidOut.{CheckLaidOut, UpdateLaidOut, UpdateWear};
ghost use Rattle.store_plan.specs.Updates.{update_refusal, update_check, updated_store};

use crate::conditions::check_update;
use crate::fault::Fault;
use crate::store::Store;
use crate::workspace::Workspace;
use blocks::device::Device;
use messages::entry::Entry;
use messages::kind::Kind;
use messages::message::Message;
use plan::cause::Cause;
use plan::refusal::StoreRefusal;

// A message's word fits 64 bits. Nothing is computed: an update's proof asks for it.
fn word_fits(message: Message)
    ensures { WordFits message }
{
    match message {
        Message::Put(_value) => {}
        Message::Remove => {}
        Message::Add(_delta) => {}
    }
}

impl<D: Device, K: Kind> Store<D, K> {
    // The body of a check.
    fn foresee(&mut self) -> Result<(), Fault<D::Fault>>
        ensures value { answer D.Device.number result ≡ update_check (contents D.Device self.old) (contents D.Device self.old).root (allowance_of D.Device self.old.device) }
        ensures same { contents D.Device self.new ≡ contents D.Device self.old }
        ensures allowance { SameAllowance D.Device self.old.device self.new.device }
    {
        self.check_open()?;
        check_update(&mut self.device, &self.workspace.root)?;
        Ok(())
    }

    // Whether an update would be refused now, and why. Nothing changes.
    pub fn check_update(&mut self) -> Result<(), Fault<D::Fault>>
        ensures value { answer D.Device.number result ≡ update_check (contents D.Device self.old) (contents D.Device self.old).root (allowance_of D.Device self.old.device) }
        ensures same { contents D.Device self.new ≡ contents D.Device self.old }
        ensures allowance { SameAllowance D.Device self.old.device self.new.device }
        ensures laid_out { CheckLaidOut K.Kind.algebra (contents D.Device self.old) (allowance_of D.Device self.old.device) (answer D.Device.number result) }
    {
        self.foresee()
    }

    // The body of an update.
    fn let_arrive(&mut self, key: u32, message: Message) -> Result<(), Fault<D::Fault>>
        ensures value { call_of D.Device result self.new ≡ updated_store K.Kind.algebra (contents D.Device self.old) (contents D.Device self.old).root (allowance_of D.Device self.old.device) key message }
        ensures lowered { Spends (2 * self.old.height) D.Device self.old.device self.new.device }
        ensures spent { is_ok result ≡ true → Spent (2 * self.old.height) self.old.workspace.root.tree_writes self.new.workspace.root.tree_writes (allowance_of D.Device self.old.device) (allowance_of D.Device self.new.device) }
        ensures spared { (y : StoreRefusal) → update_refusal (view_root self.old.workspace.root) (D.Device.meaning self.old.device).size (allowance_of D.Device self.old.device) ≡ Some y → allowance_of D.Device self.new.device ≡ allowance_of D.Device self.old.device }
    {
        self.check_open()?;
        check_update(&mut self.device, &self.workspace.root)?;
        // Stopped, as block 0 says, unless the update comes to its end.
        self.stopped = Some(Cause::Store(StoreRefusal::NotClosed));
        let arriving = Entry {
            key,
            value: message,
        };
        let Workspace { root, bench } = &mut self.workspace;
        match bench.update::<D, K>(&mut self.device, root, arriving) {
            Ok(()) => {
                self.workspace.root.updates += 1;
                self.height = self.workspace.root.node.level;
                self.stopped = None;
                Ok(())
            }
            Err(cause) => {
                self.stopped = Some(cause);
                Err(Fault::Met(cause))
            }
        }
    }

    // Lets a message arrive at a key. A fault within the update stops the store.
    pub fn update(&mut self, key: u32, message: Message) -> Result<(), Fault<D::Fault>>
        ensures value { call_of D.Device result self.new ≡ updated_store K.Kind.algebra (contents D.Device self.old) (contents D.Device self.old).root (allowance_of D.Device self.old.device) key message }
        ensures lowered { Spends (2 * self.old.height) D.Device self.old.device self.new.device }
        ensures laid_out { UpdateLaidOut K.Kind.algebra (contents D.Device self.old) (allowance_of D.Device self.old.device) key message (call_of D.Device result self.new) }
        ensures worn { UpdateWear K.Kind.algebra (contents D.Device self.old) (allowance_of D.Device self.old.device) key message (allowance_of D.Device self.new.device) }
    {
        word_fits(message);
        self.let_arrive(key, message)
    }
}
