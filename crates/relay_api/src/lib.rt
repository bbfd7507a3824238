//! Everything that a program built on the relay calls, in one place. Such a program lists this
//! crate and the crates whose types are in its own signatures, and imports only from here.
//!
//! The crate has no code of its own. What each item promises is documented at the item and in the
//! README of its crate.
#![tactic(auto)]

// Documents, actions, operations and streams.
pub use relay_action::{
    Action, ActionFault, ActionKind, Body, ByteIn, ByteOut, ByteStream, DocKey, ID_LIMIT,
    INDEX_LIMIT, LAST_VERSION, List, Mail, MemStream, Op, OpName, SOURCE_LIMIT, Source, StdStream,
    StreamFailed, Text, Write, lane_of, write_all,
};
// The bulk format, written and read.
pub use relay_ndjson::{
    BulkFault, Input, InputFault, LineKind, Parser, TextFault, bulk_len, bulk_text, read_bulk,
    write_len, write_write,
};
// Replies and verdicts.
pub use relay_results::{
    Cause, DoneResult, ErrorDetail, ItemDone, ItemError, ItemVerdict, LastTry, Outcome, ReplyFault,
    matches, read_refusal, read_reply, verdict, write_reply,
};
// The stand-in index.
pub use relay_index::{Choice, Index, Script, ServeFault, may_refuse};
// A lane, and a lane at work on a wire.
pub use relay_batch::{Batch, BatchItem, Batcher, Limits, Offer, Room};
pub use relay_flight::{Flight, Full, Request};
pub use relay_lane::{
    Lane, Loss, NotFlying, Pace, RelayConfig, Report, Settled, Success, TakeFault, Totals, Wire,
    WireReply, collect, drain, drain_next, make_room, pass, pump, send_ready, settle_next,
};
// HTTP/1.1, and the wires.
pub use relay_http::{
    AcceptFailed, Conn, Dial, DialFault, HttpFault, HttpReply, HttpRequest, Listen, Peek, is_host,
};
pub use relay_loop::{LoopDial, LoopEnd, LoopStream, LoopWire, wire_to};
pub use relay_wires::{HttpWire, Peer, Unknown};
// Epochs from a counter document.
pub use relay_epoch::{EpochFault, Patience, epoch_of, take_epoch};
pub use relay_target::{document_target, read_name, read_target};
// The world and its scripts.
pub use relay_scenario::script::{ScriptFault, world_script};
pub use relay_world::{Event, Refusal, RunEnd, StepAnswer, World};
// The running relay.
pub use relay_producer::{
    ClosedControl, ClosedEnd, ClosedProducer, Control, Producer, PutFault, PutFaultKind, Receipt,
};
pub use relay_queue::{
    ClosedPut, Gone, LanePut, LaneTake, OfferRefusal, PutRefusal, Taken, lane_queue,
};
pub use relay_threads::{
    FinishFault, FinishFaultKind, LaneEnd, LaneEndKind, LaneSummary, Relay, StartFault, Summary,
    Tell, TellNobody, run_lane,
};
// Receipts of a running relay.
pub use relay_receipts::{
    LaneTell, Notice, ReceiptTake, TakenReceipts, ToldLane, WINDOW_LIMIT, WindowFault,
    WindowFaultKind, WindowedProducer, receipts,
};
pub use relay_telling::{Ending, LaneTells, ProducerTell, telling};
// The commands as functions.
pub use relay_commands::apply::{ApplyFault, apply};
pub use relay_commands::lines::{LinesFault, lines};
pub use relay_commands::refuse_list::{ListFault, refuse_list};
pub use relay_net::{PatientDial, Reach, Sockets, TcpDial, TcpListen};
pub use relay_pace::SleepPace;
pub use relay_progress::Log;
pub use relay_report::{
    Named, PickFault, ReportFault, first_missing, pick, read_names, report_text,
};
pub use relay_run::files::run_files;
pub use relay_run::options::RunOptions;
pub use relay_sift::{CheckFault, SharedNotes, SiftNotes, Sifted, check};
pub use relay_stub::{ServeError, stub_serve};
pub use relay_words::Exit;
