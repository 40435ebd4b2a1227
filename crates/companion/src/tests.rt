mod companion_rows;
mod desk_files;
