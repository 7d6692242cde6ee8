/// How many bytes a line may have, without its line feed.
pub const MAX_LINE: usize = 4_194_304;

/// How many posts a frame may have, as in a scenario file.
pub(crate) const MAX_POSTS: usize = 1024;
