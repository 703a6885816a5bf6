//! The law of locality: what an entry reads and changes.

ghost use Rattle.std.specs.FinMap as map;
ghost use Rattle.std.specs.Prelude.{◌≡◌, ℕ, ℤ, List as Items, Some, true, false, is_some};
ghost use Rattle.host_node.specs.Tree.{Shape};
ghost use Rattle.kernel_model.specs.declared.entry.Args.{Args as AnArgs};
ghost use Rattle.kernel_model.specs.declared.entry.Entry.{Entry as AnEntry};
ghost use Rattle.kernel_model.specs.declared.entry.Entry.TheVariants.{Call as ACall};
ghost use Rattle.kernel_model.specs.declared.kernel.Kernel.{Kernel as AKernel};
ghost use Rattle.kernel_model.specs.declared.kernel.Part.{Part as APart};
ghost use Rattle.kernel_model.specs.declared.opening.Given.{Given as AGiven};
ghost use Rattle.kernel_model.specs.calls.Callers.{context_of};
ghost use Rattle.kernel_model.specs.entries.Parts.{IsIn, AgreeOn, parts, outcome_in, uses};
ghost use Rattle.kernel_model.specs.entries.Ready.{HasStep, ready_row, is_ready};
ghost use Rattle.kernel_model.specs.entries.Steps.{step, entry_row, may_enter, used, touches};
ghost use Rattle.kernel_model.specs.laws.Children.{HasUnnumbered, numbers_child};
ghost use Rattle.kernel_model.specs.laws.Writes.{IsWrite};

/// The law of locality, which holds of every kernel and entry. It does nothing.
///
/// - `same`: in kernels with the same mounts, key of the random stream and number of entries, which hold the same in
///   each part that an entry reads, the entry reads the same parts and changes the same.
/// - `rest`: each part that an entry does not change holds what it held.
/// - `touched`: what the changed parts hold after the entry depends on nothing but the parts that it reads, and these.
/// - `fits`: whether an entry fits depends on nothing but the parts that it reads, in kernels in which its fresh
///   numbers are unused and each node whose count rose has a number, or gets one of them.
/// - `ready`: whether a task's next step is ready depends on the parts that it reads, and on nothing else.
/// - `steps`: a task whose next step is ready has an entry without a rise that fits.
/// - `stepless`: a task whose next step is not ready has none.
/// - `write`: for a write (`write`, `writev`, `pwrite64`) `same` holds also of kernels with other mounts, keys and
///   numbers of entries.
/// - `unnumbered`: a child without an inode number stays as it is through each entry that gives it none.
pub fn locality()
    ensures same { (a b : AKernel) (e : AnEntry) → context_of b ≡ context_of a →
        AgreeOn (used a e) (parts a) (parts b) → (used b e ≡ used a e)
        × (outcome_in (parts b) (entry_row (context_of b) e) ≡ outcome_in (parts a) (entry_row (context_of a) e)) }
    ensures rest { (k next : AKernel) (e : AnEntry) → step k e ≡ Some next →
        (p : APart) → ¬ IsIn p (touches k e) → parts next p ≡ parts k p }
    ensures touched { (a b next other : AKernel) (e : AnEntry) → context_of b ≡ context_of a →
        AgreeOn (used a e) (parts a) (parts b) → step a e ≡ Some next → step b e ≡ Some other →
        (p : APart) → IsIn p (touches a e) → parts next p ≡ parts other p }
    ensures fits { (a b : AKernel) (e : AnEntry) → context_of b ≡ context_of a →
        AgreeOn (used a e) (parts a) (parts b) → may_enter a.nodes e ≡ true → may_enter b.nodes e ≡ true →
        is_some (step b e) ≡ is_some (step a e) }
    ensures ready { (a b : AKernel) (task : ℕ) →
        AgreeOn (uses (parts a) (ready_row (context_of a) task)) (parts a) (parts b) →
        is_ready b task ≡ is_ready a task }
    ensures steps { (k : AKernel) (task : ℕ) → is_ready k task ≡ true → HasStep k task }
    ensures stepless { (k : AKernel) (task : ℕ) → is_ready k task ≡ false → ¬ HasStep k task }
    ensures write { (a b : AKernel) (task number : ℕ) (args : AnArgs) (given : AGiven) (reply : ℤ) →
        IsWrite number →
        let e : AnEntry = ACall task number args given reply in
        AgreeOn (used a e) (parts a) (parts b) → (used b e ≡ used a e)
        × (outcome_in (parts b) (entry_row (context_of b) e) ≡ outcome_in (parts a) (entry_row (context_of a) e)) }
    ensures unnumbered { (k next : AKernel) (e : AnEntry) (dir : ℕ) (name : Items ℕ) (shape : Shape) →
        step k e ≡ Some next → numbers_child e dir name ≡ false →
        HasUnnumbered name shape (map.get k.nodes dir) → HasUnnumbered name shape (map.get next.nodes dir) }
{}
