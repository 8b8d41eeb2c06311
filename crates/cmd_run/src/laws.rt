//! Laws on what the clauses of `run` leave, facts about their definitions alone.

ghost use Rattle.cmd_run.specs.Completeness.{AnswerCompletes, CheckCompletes, DecodeCompletes, EncodeCompletes, FormatCompletes};
ghost use Rattle.cmd_journal.specs.Prints.{journal_devices};
ghost use Rattle.cmd_run.specs.Journals.{JournalCompletes};
ghost use Rattle.cmd_run.specs.Moving.{MigrateCompletes};

use gw_outside::{Disk, Sink};

/// What the clauses of `run` say of `answer` leaves one end for a told configuration and input where no device
/// failed: the whole answer was given, with its status, or memory ran out.
pub fn answer_completes()
    ensures { AnswerCompletes }
{}

/// What the clauses of `run` say of `check` leaves one end for a told schema without a fault where no device failed:
/// all lines were printed and the status is done, or memory ran out.
pub fn check_completes()
    ensures { CheckCompletes }
{}

/// What the clauses of `run` say of `decode` leaves one end for a told schema and input where no device failed: the lines
/// of the messages up to the first fault were printed, with the status of that, or memory ran out.
pub fn decode_completes()
    ensures { DecodeCompletes }
{}

/// What the clauses of `run` say of `encode` leaves one end for a told schema, and a told text that spells messages and is
/// not too long, where no device failed: their frames were written, up to the first that may not be, or memory ran out.
pub fn encode_completes()
    ensures { EncodeCompletes }
{}

/// What the clauses of `run` say of `format` leaves one end for two told disks that do not begin with the magic, where no
/// device failed: both are journals without records, and the status is done.
pub fn format_completes<D: Disk>()
    ensures { FormatCompletes D.told D.may_leave D.faults }
{}

/// What the clauses of `run` say of `journal` leaves one end for two told disks, where no device failed: the first of them
/// that is no journal of its box is refused with its cause, and where both are, all lines were printed and the status is done;
/// or memory ran out. Of what a disk tells one of these is found at most.
pub fn journal_completes<K: Sink, D: Disk>()
    ensures { JournalCompletes (journal_devices K.Sink D.Disk) }
{}

/// What the clauses of `run` say of `migrate` leaves one end for two told disks, where no device failed: OLD is refused where it is no
/// journal of format 1, then NEW where it is not fresh, then a journal that would be too long; where none of these is so, all records were
/// moved; or memory ran out.
pub fn migrate_completes<D: Disk>()
    ensures { MigrateCompletes D.told D.may_leave D.faults }
{}
