//! What peers are given, however they send and take.
use crate::scripts::{Peer, Script, Scripts};
use csvw_meta::Limits;
use odata_hub::{Conn, Hub};
use odata_rounds::{Slot, SlotState, visit_place};
use std::alloc::{AllocError, Global};
use std::array;
use std::rc::Rc;
use std::test::Fail;
use table_store::{Catalog, NamedFile};

const META: &str = r#"{"url":"notes.csv","tableSchema":{"columns":[{"name":"Id"}]}}"#;

const COUNT: &str = "GET /notes/$count HTTP/1.1\r\nHost: h\r\n\r\n";

/// The same twice, in one stream.
const COUNTS: &str =
    "GET /notes/$count HTTP/1.1\r\nHost: h\r\n\r\nGET /notes/$count HTTP/1.1\r\nHost: h\r\n\r\n";

/// A head that closes, with one after it.
const CLOSING: &str =
    "GET /notes/$count HTTP/1.1\r\nHost: h\r\nConnection: close\r\n\r\nGET / HTTP/1.1\r\nHost: h\r\n\r\n";

const REPLY: &str =
    "HTTP/1.1 200 OK\r\nContent-Type: text/plain;charset=utf-8\r\nOData-Version: 4.0\r\nContent-Length: 1\r\n\r\n2";

/// Its first 96 bytes.
const FRONT: &str =
    "HTTP/1.1 200 OK\r\nContent-Type: text/plain;charset=utf-8\r\nOData-Version: 4.0\r\nContent-Length: 1\r\n";

/// The replies to two counts, between which the table had a row more.
const REPLIES: &str =
    "HTTP/1.1 200 OK\r\nContent-Type: text/plain;charset=utf-8\r\nOData-Version: 4.0\r\nContent-Length: 1\r\n\r\n2HTTP/1.1 200 OK\r\nContent-Type: text/plain;charset=utf-8\r\nOData-Version: 4.0\r\nContent-Length: 1\r\n\r\n3";

const LAST: &str =
    "HTTP/1.1 200 OK\r\nContent-Type: text/plain;charset=utf-8\r\nOData-Version: 4.0\r\nContent-Length: 1\r\nConnection: close\r\n\r\n2";

/// The reply to a rest that is no head.
const REST: &str =
    "HTTP/1.1 400 Bad Request\r\nContent-Type: application/json;odata.metadata=none\r\nOData-Version: 4.0\r\nContent-Length: 70\r\nConnection: close\r\n\r\n{\"error\":{\"code\":\"BadRequest\",\"message\":\"the request cannot be read\"}}";

/// A peer, what it is given in all, and what became of its place last.
#[derive(Clone, Copy)]
struct Case {
    script: Script<'static>,
    given: &'static str,
    end: SlotState,
}

/// A peer that sends its stream and takes its replies.
const PLAIN: Script<'static> = Script {
    sends: COUNT,
    drips: 64,
    takes: 1_000,
    waits: false,
    lost_at: 0,
};

/// How many slots are enough for each list of cases.
const PLACES: u32 = 8;

/// Returns the one file of the folder.
fn notes(alloc: Global, bytes: &str) -> Result<Vec<NamedFile>, AllocError> {
    let file = NamedFile {
        name: String::from_str(alloc, "notes.csv")?,
        bytes: Vec::from_slice(alloc, bytes.as_bytes())?,
    };
    Ok(vec![in alloc; file]?)
}

/// Returns the tables if that has these bytes: such a folder is refused only if memory runs out.
pub(crate) fn tables(alloc: Global, bytes: &str) -> Result<Rc<Catalog>, AllocError> {
    let files = notes(alloc, bytes)?;
    let meta = Vec::from_slice(alloc, META.as_bytes())?;
    let catalog = Catalog::load(alloc, Limits::greatest(), meta, files).map_err(|_| AllocError)?;
    Rc::new(alloc, catalog).map_err(|_| AllocError)
}

/// Returns a hub over a table of two rows, with a connection for each case.
fn hub_of(alloc: Global, cases: &[Case]) -> Result<Hub, AllocError> {
    let mut hub = Hub::new(alloc, tables(alloc, "Id\n1\n2\n")?, PLACES)?;
    for _case in cases {
        let _ = hub.open();
    }
    Ok(hub)
}

/// Returns their peers.
fn peers_of(alloc: Global, cases: &[Case]) -> Result<Scripts<'static>, AllocError> {
    let mut peers = Vec::new(alloc);
    for case in cases {
        peers.push(Peer::new(alloc, case.script))?;
    }
    Ok(Scripts { peers })
}

/// Returns the places, before their first visit.
fn free_slots() -> [Slot; 8] {
    array::from_fn(|_| Slot {
        state: SlotState::Free,
    })
}

/// Goes round the places, each of which has a visit, and notes what became of the place of each peer last. A place whose connection is over or lost is given
/// back.
fn play(hub: &mut Hub, slots: &mut [Slot; 8], peers: &mut Scripts<'_>, rounds: u32) {
    let mut room = [0u8; 64];
    for _turn in 0..rounds {
        for place in 0..PLACES {
            visit_place(hub, slots, peers, place, &mut room);
            let slot = &mut slots[place as usize];
            if slot.state != SlotState::Free {
                peers.note(place, slot.state);
            }
            if slot.state == SlotState::Answered || slot.state == SlotState::Lost {
                let _ = hub.drop_conn(Conn(place));
            }
        }
    }
}

/// Peers beside one another, each of which is given what it is given alone.
const CASES: &[Case] = &[
    Case {
        script: PLAIN,
        given: REPLY,
        end: SlotState::Answered,
    },
    Case {
        script: Script {
            drips: 1,
            takes: 1,
            waits: true,
            ..PLAIN
        },
        given: REPLY,
        end: SlotState::Answered,
    },
    Case {
        script: Script {
            sends: CLOSING,
            drips: 7,
            takes: 7,
            waits: true,
            ..PLAIN
        },
        given: LAST,
        end: SlotState::Answered,
    },
    Case {
        script: Script { sends: "", ..PLAIN },
        given: "",
        end: SlotState::Answered,
    },
    // it ends after half of a head
    Case {
        script: Script {
            sends: "GET /notes/$count HT",
            ..PLAIN
        },
        given: REST,
        end: SlotState::Answered,
    },
    // it takes nothing
    Case {
        script: Script { takes: 0, ..PLAIN },
        given: "",
        end: SlotState::Rests,
    },
    // lost at the first read, and at the second write
    Case {
        script: Script {
            lost_at: 1,
            ..PLAIN
        },
        given: "",
        end: SlotState::Lost,
    },
    Case {
        script: Script {
            takes: 96,
            lost_at: 3,
            ..PLAIN
        },
        given: FRONT,
        end: SlotState::Lost,
    },
];

/// Other tables come after 50 rounds: after the first head of the one stream, and while the other's reply is written.
const RELOADED: &[Case] = &[
    Case {
        script: Script {
            sends: COUNTS,
            drips: 1,
            ..PLAIN
        },
        given: REPLIES,
        end: SlotState::Answered,
    },
    Case {
        script: Script { takes: 1, ..PLAIN },
        given: REPLY,
        end: SlotState::Answered,
    },
];

/// Returns true if a peer took what it is given, and its place ended so.
fn is_right(peer: Option<&Peer<'_>>, case: &Case) -> bool {
    match peer {
        Some(peer) => peer.end == case.end && peer.taken.as_slice() == case.given.as_bytes(),
        None => false,
    }
}

/// Returns the first case whose peer took something else, or whose place ended otherwise, when a table of three rows comes between rounds.
fn first_wrong(
    alloc: Global,
    cases: &[Case],
    before: u32,
    after: u32,
) -> Result<Option<usize>, AllocError> {
    let newer = tables(alloc, "Id\n1\n2\n3\n")?;
    let mut hub = hub_of(alloc, cases)?;
    let mut peers = peers_of(alloc, cases)?;
    let mut slots = free_slots();
    play(&mut hub, &mut slots, &mut peers, before);
    hub.reload(newer);
    play(&mut hub, &mut slots, &mut peers, after);
    for (at, case) in cases.iter().enumerate() {
        if !is_right(peers.peers.get(at), case) {
            return Ok(Some(at));
        }
    }
    Ok(None)
}

#[test]
fn scripted_peers(rt: HostRuntime) -> Result<(), Fail> {
    let alone = first_wrong(rt.alloc(), CASES, 400, 0)?;
    let reloaded = first_wrong(rt.alloc(), RELOADED, 50, 100)?;
    assert_eq!(rt; (alone, reloaded), (None, None));
    Ok(())
}
