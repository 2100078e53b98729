ghost use Rattle.rv_flat.specs.declared.linear.Linear.{Linear as LinearCode};
ghost use Rattle.rv_flat.specs.Lawful.{IsLawful as IsLawfulLinear};
ghost use Rattle.rv_alloc.specs.declared.assigned.Assigned.{Assigned as AssignedCode};
ghost use Rattle.rv_alloc.specs.Holds.{Holds};
ghost use Rattle.rv_alloc.specs.Keeps.{Keeps, IsLawful};

/// Where `holds` accepts the places, the assigned code does what the linear code does, and is lawful
/// where that is.
pub fn holding_keeps()
    ensures keeps { (linear : LinearCode) (assigned : AssignedCode) → Holds linear assigned → Keeps linear assigned }
    ensures lawful { (linear : LinearCode) (assigned : AssignedCode) → Holds linear assigned → IsLawfulLinear linear → IsLawful assigned }
{}
