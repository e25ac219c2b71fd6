//! A law about an office over several starts, stated as the contract of a function with an empty body.

ghost use Rattle.plant_office.specs.Lives.{CrashesLeaveAWorld};

/// Whatever the number of starts and crashes, the books that are found hold the world after some calls, made one after
/// the other. Every confirmed call is among them in its order, and for each start at most one that was answered by a
/// fault. So the contract of `serve`, its headline included, holds for every later call.
pub fn crashes_leave_a_world()
    ensures { CrashesLeaveAWorld }
{}
