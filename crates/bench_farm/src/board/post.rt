//! A seat beside its board.
ghost use Rattle.std.specs.Prelude.{◌≡◌, ◌+◌, length};
ghost use Rattle.std.specs.Arc.{arc_value};
ghost use Rattle.tp_board.specs.Boards.{IsSeatOf};

use crate::board::rounds::Place;
use anyhow::Result;
use std::alloc::Global;
use std::sync::Arc;
use tp_board::{Board, Claim, MAX_PACKETS, Seat};

/// A seat with its board, which it shares with the other seats' posts.
#[derive(Drop)]
pub(crate) struct Post {
    board: Arc<Board, Global>,
    seat: Seat,
    ghost own: { IsSeatOf (arc_value board) seat },
}

impl Post {
    pub(crate) fn new(board: Arc<Board, Global>, seat: Seat) -> Post
        requires { IsSeatOf (arc_value board) seat }
        ensures { result.seat ≡ seat }
    {
        Post { board, seat }
    }

    // How many were finished, until there is no more.
    fn finish_all(&mut self) -> u64
        ensures { length self.new.seat.view.finished ≡ length self.old.seat.view.finished + result }
    {
        for finished in 0..u64::from(MAX_PACKETS) {
            let Claim::Packet(_) = self.board.claim(&mut self.seat) else {
                return finished;
            };
            let _ = self.board.finish(&mut self.seat);
        }
        u64::from(MAX_PACKETS)
    }
}

impl Place for Post {
    fn work(&mut self) -> u64 {
        self.finish_all()
    }
}

/// For each thread its posts, one at each of this many boards.
pub(crate) fn posts_for(alloc: Global, threads: u32, boards: u32) -> Result<Vec<Vec<Post>>> {
    let mut all = Vec::new(alloc);
    for _ in 0..threads {
        all.push(Vec::new(alloc))?;
    }
    for _ in 0..boards {
        let (board, mut seats) = Board::new(alloc, MAX_PACKETS, threads)?;
        let shared = Arc::new(alloc, board)?;
        for own in all.iter_mut() {
            let Some(seat) = seats.pop() else {
                break;
            };
            own.push(Post::new(Arc::try_clone(&shared)?, seat))?;
        }
    }
    Ok(all)
}
