//! Where expressions stop: at the first part that does, after the parts before it.

ghost use Rattle.type_constructs.specs.TypeStopsExpressions.{FailsNumberClass, FailsNumber, FailsType, FailsCopy};
ghost use Rattle.type_constructs.specs.TypeStopsExpressions.{FailsAccessorLack, FailsAccessor, FailsFunction, FailsParameters};
ghost use Rattle.type_constructs.specs.TypeStopsExpressions.{FailsBody, FailsApplied, FailsArguments, FailsTest, FailsThen};
ghost use Rattle.type_constructs.specs.TypeStopsExpressions.{FailsElse, FailsLogical, FailsLogicalLeft, FailsLogicalRight};
ghost use Rattle.type_constructs.specs.TypeStopsExpressions.{FailsSubject, FailsBranches, FailsDefinitions, FailsLetBody};
ghost use Rattle.type_constructs.specs.TypeStopsExpressions.{FailsNextPart, FailsMoreParts, FailsFewerParts, FailsBranchPattern};
ghost use Rattle.type_constructs.specs.TypeStopsExpressions.{FailsBranchBody};
ghost use Rattle.type_constructs.specs.Operations.{FailsTuple, FailsTupleParts, FailsList, FailsListParts};
ghost use Rattle.type_constructs.specs.Operations.{FailsBuildShape, FailsBuild, FailsBuildParts, FailsRecord};
ghost use Rattle.type_constructs.specs.Operations.{FailsRecordParts, FailsAccessLack, FailsAccessed, FailsAccess};
ghost use Rattle.type_constructs.specs.Operations.{FailsUpdated, FailsUpdateLack, FailsUpdate, FailsUpdateParts};
ghost use Rattle.type_constructs.specs.Operations.{FailsNegate, FailsNegated, FailsBinaryClass, FailsBinary};
ghost use Rattle.type_constructs.specs.Operations.{FailsBinaryLeft, FailsBinaryRight};

/// An expression stops where one of its parts does, or where what it is is not wanted.
pub fn expression_fault_law()
    ensures number_class { FailsNumberClass }
    ensures number { FailsNumber }
    ensures type_of { FailsType }
    ensures copy { FailsCopy }
    ensures accessor_lack { FailsAccessorLack }
    ensures accessor { FailsAccessor }
    ensures function { FailsFunction }
    ensures parameters { FailsParameters }
    ensures body { FailsBody }
    ensures applied { FailsApplied }
    ensures arguments { FailsArguments }
    ensures test { FailsTest }
    ensures chosen { FailsThen }
    ensures otherwise { FailsElse }
    ensures logical { FailsLogical }
    ensures logical_left { FailsLogicalLeft }
    ensures logical_right { FailsLogicalRight }
    ensures subject { FailsSubject }
    ensures branches { FailsBranches }
    ensures definitions { FailsDefinitions }
    ensures let_body { FailsLetBody }
    ensures next_part { FailsNextPart }
    ensures more_parts { FailsMoreParts }
    ensures fewer_parts { FailsFewerParts }
    ensures branch_pattern { FailsBranchPattern }
    ensures branch_body { FailsBranchBody }
{}

/// An operation stops where one of its parts does, or where what it gives is not wanted.
pub fn operation_fault_law()
    ensures tuple { FailsTuple }
    ensures tuple_parts { FailsTupleParts }
    ensures list { FailsList }
    ensures list_parts { FailsListParts }
    ensures build_shape { FailsBuildShape }
    ensures build { FailsBuild }
    ensures build_parts { FailsBuildParts }
    ensures record_of { FailsRecord }
    ensures record_parts { FailsRecordParts }
    ensures access_lack { FailsAccessLack }
    ensures accessed { FailsAccessed }
    ensures access { FailsAccess }
    ensures updated { FailsUpdated }
    ensures update_lack { FailsUpdateLack }
    ensures update { FailsUpdate }
    ensures update_parts { FailsUpdateParts }
    ensures negate { FailsNegate }
    ensures negated { FailsNegated }
    ensures binary_class { FailsBinaryClass }
    ensures binary { FailsBinary }
    ensures binary_left { FailsBinaryLeft }
    ensures binary_right { FailsBinaryRight }
{}
