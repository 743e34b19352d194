//! A packet that arrives at an authority switch.
ghost use Rattle.std.specs.Prelude.{◌≡◌, [], ◌∷◌, None, IfOk, IsSomeAnd, IsTrue};
ghost use Rattle.five_tuple.specs.declared.header.Header.{Header};
ghost use Rattle.ternary.specs.Meets.{any_word};
ghost use Rattle.policy_rules.specs.Hosted.{is_in_policy_partition};
ghost use Rattle.policy_rules.specs.declared.packet.Leg.TheVariants.{Seek};
ghost use Rattle.switch_table.specs.Tables.{AreSoundSwitchTables};
ghost use Rattle.switch_core.specs.Exports.{CanSwitchLookUp, HasSwitchAdvertUpTo, MaySwitchEndLeg, SwitchStandsAtRoutePlace, switch_own_partition, serves};
ghost use Rattle.tunnel.specs.Moves.{next};

use ctrl_msg::{Body, SharedTables};
use failover::{Database, DownSet};
use five_tuple::{Fields, Header};
use net_file::solo;
use policy_rules::{Action, How, Leg, Partition, Rule, Rules, Targets};
use std::alloc::Global;
use std::test::Fail;
use switch_core::{Arrived, Decision, Next, Switch, switch_laws};
use switch_table::{PartRow, PartRows, Partitions, Tables};
use ternary::Word;
use tunnel::Tunnel;

// Tables of one partition, which has all headers, with these authority partitions.
fn tables(alloc: Global, version: u32, auth: Vec<Partition>) -> Result<Tables, Fail>
    ensures version { IfOk result (λ t. t.version ≡ version) }
    ensures parts { IfOk result (λ t. t.parts
        ≡ record { region = any_word; targets = 1 ∷ [] } ∷ []) }
    ensures auth { IfOk result (λ t. t.auth ≡ auth.items) }
{
    let row = PartRow {
        region: Word::any(),
        targets: Targets::new(&[1]).ok_or("targets")?,
    };
    let mut rows = Vec::new(alloc);
    rows.push(row)?;
    Ok(Tables {
        version,
        parts: PartRows::new(rows)?,
        auth: Partitions::new(auth)?,
    })
}

// Of the authority switch.
#[tactic(auto, using(crate::proofs::SwitchTestTables::sound_authority, crate::proofs::SwitchTestTables::own_whole))]
fn authority_tables(alloc: Global, version: u32) -> Result<SharedTables, Fail>
    ensures sound { IfOk result AreSoundSwitchTables }
    ensures version { IfOk result (λ t. t.version ≡ version) }
    ensures own { IfOk result (λ t. (header : Header) →
        IsSomeAnd (switch_own_partition t 0) (λ part. IsTrue (is_in_policy_partition header part))) }
{
    let mut rules = Vec::new(alloc);
    rules.push(Rule {
        word: Word::any(),
        rank: 0,
        rule: Some(100),
        action: Action::Out(2),
    })?;
    let mut auth = Vec::new(alloc);
    auth.push(Partition {
        number: 0,
        region: Word::any(),
        rules: Rules::new(rules)?,
    })?;
    let tables = tables(alloc, version, auth)?;
    Ok(SharedTables::new(alloc, tables)?)
}

// Switches a, b and c, numbered from 0, with the links a-b and b-c.
fn chain() -> Database
    ensures a { HasSwitchAdvertUpTo result 0 1 1 }
    ensures b { HasSwitchAdvertUpTo result 1 1 1 }
{
    switch_laws();
    let mut near = [0; 64];
    near[0] = 0b010;
    near[1] = 0b101;
    near[2] = 0b010;
    Database::begin(&near, 3)
}

const FIELDS: Fields = Fields {
    src: 1,
    dst: 2,
    sport: 3,
    dport: 4,
    proto: 6,
};

// A packet that entered at a, and looks for partition 0 of this version at the end of its way.
fn seeking(version: u32) -> Result<Tunnel, Fail>
    ensures { IfOk result (λ t. t.leg ≡ Seek version 0) }
{
    let leg = Leg::Seek {
        version,
        partition: 0,
    };
    let to_b = Targets::new(&[1]).ok_or("b")?;
    let down = DownSet::empty();
    let route = chain().route(1, &to_b, 0b101, &down).ok_or("b to b")?;
    Ok(Tunnel::begin(7, Header::pack(&FIELDS), 0, leg, to_b, route, down))
}

// Whether the packet is at the switch.
fn is_at(packet: &Tunnel, switch: &Switch) -> bool
    ensures { IsTrue result → SwitchStandsAtRoutePlace switch.now packet.now.route packet.now.place }
{
    packet.here() == switch.number()
}

// Whether it is there at the end of its route.
fn is_at_end(packet: &Tunnel, switch: &Switch) -> bool
    ensures here { IsTrue result → SwitchStandsAtRoutePlace switch.now packet.now.route packet.now.place }
    ensures last { IsTrue result → next packet.now ≡ None }
{
    is_at(packet, switch) && packet.next().is_none()
}

// b, with its tables of version 1.
#[tactic(auto, using(crate::proofs::SwitchTestTables::at_authority, crate::proofs::SwitchTestTables::looks_up))]
fn authority(alloc: Global) -> Result<Switch, Fail>
    ensures boot { IfOk result (λ s. s.boot ≡ 1) }
    ensures seq { IfOk result (λ s. s.seq ≡ 1) }
    ensures serves { IfOk result (λ s. IsTrue (serves s)) }
    ensures stamped { IfOk result CanSwitchLookUp }
    ensures part { IfOk result (λ s. (header : Header) → MaySwitchEndLeg s header (Seek 1 0)) }
{
    let tables = authority_tables(alloc, 1)?;
    Ok(Switch::begin(alloc, 1, 4, tables, chain())?)
}

const fn by_authority() -> How {
    How::Authority {
        switch: 1,
        partition: 0,
    }
}

// Whether a packet that arrived is decided by the authority rule of this version, its rule is sent
// to the cache of a, and the packet to a, which has its port.
fn is_decided(arrived: &Arrived, version: u32) -> bool {
    match arrived {
        Arrived::Decided {
            decision,
            cache: Some(
                Body::CacheRule {
                    version: cached,
                    ..
                },
            ),
            next: Next::Exit(_),
        } => {
            let decided = Decision {
                version,
                rule: Some(100),
                action: Action::Out(2),
                how: by_authority(),
            };
            *decision == decided && *cached == version
        }
        _ => false,
    }
}

#[test]
fn an_authority_switch_decides(rt: HostRuntime) -> Result<(), Fail> {
    let alloc = rt.alloc();
    let mut b = authority(alloc)?;
    let packet = seeking(1)?;
    assert!(rt; is_at_end(&packet, &b));
    let arrived = b.arrive(&packet, 0b101, &solo(alloc)?.ports());
    assert!(rt; is_decided(&arrived, 1) && b.handled() == 1 && b.number() == 1);
    Ok(())
}
