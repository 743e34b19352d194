//! Messages of a switch that are kept, by buckets: a message that says as much as another is in
//! the same bucket.
ghost use Rattle.std.specs.Prelude.{◌≡◌, ◌↔◌, ◌⊎◌, length, IfOk, IsTrue, OnOk};
ghost use Rattle.ctrl_msg.specs.declared.message.Message.{Message};
ghost use Rattle.journal_reports.specs.Buckets.{AreEmptyReportBuckets, ReportBucketHasSaying, IsKeptInReportBucket, report_bucket_of, report_subject_of_body};
ghost use Rattle.journal_reports.specs.Judging.{ReportedMessageSaysAsMuch};

use crate::replacing::says_as_much_in_report;
use journal::{Body, Message, SharedMessage};
use std::alloc::{AllocError, Global};

/// The messages of one bucket.
#[derive(Drop)]
pub struct Bucket {
    pub messages: Vec<SharedMessage>,
}

/// 64 empty buckets: what is about switch or version n is in bucket n, or in the first one if n is
/// 64 or more.
///
/// # Errors
/// Only out of memory.
pub fn empty_report_buckets(alloc: Global) -> Result<Vec<Bucket>, AllocError>
    ensures { IfOk result (λ buckets. AreEmptyReportBuckets buckets.items) }
{
    let mut buckets = Vec::new(alloc);
    for bucket in 0..64_u32 {
        buckets.push(Bucket {
            messages: Vec::new(alloc),
        })?;
    }
    Ok(buckets)
}

/// Whether one of the messages in the buckets says as much as this one.
pub fn report_buckets_keep(buckets: &[Bucket], message: &Message) -> bool
    ensures { IsTrue result ↔ IsKeptInReportBucket buckets.now message.now }
{
    let bucket = report_bucket_of(&message.body) as usize;
    bucket < buckets.len() && is_said_in_bucket(&buckets[bucket].messages, message)
}

// Whether one of the messages says as much as this one.
fn is_said_in_bucket(messages: &[SharedMessage], message: &Message) -> bool
    ensures { IsTrue result ↔ ReportBucketHasSaying messages.now message.now }
{
    for kept in messages {
        if says_as_much_in_report(kept.get(), message) {
            return true;
        }
    }
    false
}

/// Puts the message into its bucket.
///
/// # Errors
/// Only out of memory.
pub fn keep(buckets: &mut Vec<Bucket>, message: &SharedMessage) -> Result<(), AllocError>
    ensures count { OnOk result (length buckets.new.items ≡ length buckets.old.items) }
    ensures kept { OnOk result (length buckets.old.items ≡ 64 → (other : Message) →
        IsKeptInReportBucket buckets.new.items other
        ↔ (IsKeptInReportBucket buckets.old.items other ⊎ ReportedMessageSaysAsMuch message.now other)) }
{
    let bucket = report_bucket_of(&message.get().body) as usize;
    if bucket >= buckets.len() {
        return Ok(());
    }
    buckets[bucket].messages.push(message.clone()?)?;
    Ok(())
}

/// The bucket of a message with this body. In a journal of steps each origin and each version has
/// its own bucket, so that few messages are kept in a bucket.
pub fn report_bucket_of(body: &Body) -> u32
    ensures { result ≡ report_bucket_of body.now }
{
    let subject = report_bucket_subject(body);
    if subject < 64 { subject } else { 0 }
}

// An advert's origin, or the version of an install, its acknowledgement or an open; otherwise 0.
fn report_bucket_subject(body: &Body) -> u32
    ensures { result ≡ report_subject_of_body body.now }
{
    match body {
        Body::Advertise { advert } => advert.origin,
        Body::Install { tables, .. } => tables.tables().version,
        Body::OpenAt { version, .. } | Body::Installed { version, .. } => *version,
        _ => 0,
    }
}
