ghost use Rattle.ir_form.specs.Lawful.{IsLawful as IsLawfulUnit};
ghost use Rattle.ir_form.specs.declared.unit.Unit.{Unit as RegionUnit};
ghost use Rattle.rv_alloc.specs.Keeps.{IsLawful as IsLawfulAssigned};
ghost use Rattle.rv_alloc.specs.declared.assigned.Assigned.{Assigned as AssignedCode};
ghost use Rattle.rv_flat.specs.Lawful.{IsLawful as IsLawfulLinear};
ghost use Rattle.rv_flat.specs.declared.linear.Linear.{Linear as LinearCode};
ghost use Rattle.tu_compile.specs.Meant.{NeverFaults, TestsPlaces, assigned_meant, linear_meant, region_meant};

/// A code may lie at just the pairs of addresses that are a place for it.
#[tactic(auto, using(crate::proofs::Faults::tests_places))]
pub fn fits_where_placed()
    ensures { TestsPlaces }
{}

/// No run of lawful region code faults.
#[tactic(auto, using(crate::proofs::Faults::unit_never_faults))]
pub fn lawful_unit_never_faults()
    ensures { (unit : RegionUnit) → IsLawfulUnit unit → NeverFaults (region_meant unit) }
{}

/// No run of lawful linear code faults.
#[tactic(auto, using(crate::proofs::Faults::linear_never_faults))]
pub fn lawful_linear_never_faults()
    ensures { (linear : LinearCode) → IsLawfulLinear linear → NeverFaults (linear_meant linear) }
{}

/// No run of lawful assigned code faults.
#[tactic(auto, using(crate::proofs::Faults::assigned_never_faults))]
pub fn lawful_assigned_never_faults()
    ensures { (assigned : AssignedCode) → IsLawfulAssigned assigned → NeverFaults (assigned_meant assigned) }
{}
