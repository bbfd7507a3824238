//! How the grammars and their faults relate.
ghost use Rattle.relay_ndjson.specs.Laws.{TextDecides, NoOperationAtFault, NoEndAtFault};
ghost use Rattle.relay_ndjson.specs.Laws.{NoOperationAtEnd, OneFault, OneOperation};
ghost use Rattle.relay_ndjson.specs.Laws.{NoOperationAtRead, AlwaysDecided, VersionedTextDecides};
ghost use Rattle.relay_ndjson.specs.Laws.{BulkTextIsBulk, OneBulk, NoFaultInBulk, OneBulkFault};

/// Laws of a producer's input. A text has no fault exactly if it asks for an action on a valid
/// document. Over known bytes, an operation, the end and a fault exclude each other, one of them
/// always applies, and there is only one operation or one first fault. If a read failed, no whole
/// operation had been read.
pub fn faults_exclude()
    ensures text { TextDecides }
    ensures operation { NoOperationAtFault }
    ensures end { NoEndAtFault }
    ensures neither { NoOperationAtEnd }
    ensures one { OneFault }
    ensures front { OneOperation }
    ensures read { NoOperationAtRead }
    ensures total { AlwaysDecided }
{}

/// Laws of bodies. A text has no fault exactly if it asks for an action on a valid document at a
/// version. The bulk text of writes is a body of exactly these writes. A body has a single list of
/// writes, and then no fault; and there is only one first fault.
pub fn bodies_are_one()
    ensures text { VersionedTextDecides }
    ensures written { BulkTextIsBulk }
    ensures one { OneBulk }
    ensures fault { NoFaultInBulk }
    ensures first { OneBulkFault }
{}
